//! A list of rules, and normal forms by it.

ghost use Rattle.std.specs.Prelude.{◌≡◌, ◌≢◌, ◌<◌, ◌≤◌, ◌++◌, ◌∷◌, [], IfOk, IfSome, List, OnErr, OnOk, Some, length, map, option_map, slice_get, ℕ};
ghost use Rattle.std.specs.Bool.{OnFalse, OnTrue};
ghost use Rattle.mb_order.specs.Monomial.{HaveOneShape};
ghost use Rattle.mb_order.specs.Rewriting.{Step};
ghost use Rattle.mb_order.specs.Symbols.{IsSetOf};
ghost use Rattle.mb_order.specs.Weight.{IsLight, Suits, weights};
ghost use Rattle.mb_rules.specs.Limits.{most_rules};
ghost use Rattle.mb_rules.specs.NormalForm.{IsFirst, NormalBy};
ghost use Rattle.mb_rules.specs.RuleList.{AreRules, IsRuleOf, ValidRules};
ghost use Rattle.mb_rules.specs.Sides.{AreLeftSets, RuleSuits, sides};
ghost use Rattle.mb_rules.specs.declared.rule.Rule as code;
ghost use Rattle.mb_tables.specs.Vectors.{within};

use crate::rule::Rule;
use crate::trace::Trace;
use mb_matrix::Matrix;
use mb_order::{Monomial, Order};
use mb_tables::OutOfMemory;
use std::alloc::Global;
use std::marker::Model;

/// Rules in a fixed order, numbered from 0, over the monomials of a matrix: seen as the matrix,
/// the order of monomials and the list of rules, at most 1,000,064 of them.
#[derive(Drop)]
pub struct Rules {
    matrix: Matrix,
    order: Order,
    rules: Vec<Rule>,
    // the symbols of each left side, side by side: a search passes over these before it touches a
    // rule
    sets: Vec<u128>,
}

impl Model for Rules {
    ghost use Rattle.std.specs.Prelude.{map};
    ghost use Rattle.mb_rules.specs.RuleList.{RuleList};
    ghost use Rattle.mb_rules.specs.Sides.{IsRuleList, sides};

    ghost Value = { RuleList };

    ghost view = { λ l.
        record { matrix = l.matrix; order = l.order; rules = map sides l.rules.items } };

    ghost invariant = { λ l. IsRuleList l.matrix l.order l.rules.items l.sets.items };
}

/// Whether the left side of a rule divides a monomial, where the sets have the symbols that occur
/// in the two.
fn fits(rule: &Rule, set: u128, occurring: u128, m: &Monomial) -> bool
    requires set { IsSetOf set rule.now.left.list }
    requires occurring { IsSetOf occurring m.now.list }
    requires shape { HaveOneShape rule.now.left m.now }
    ensures { result ≡ within rule.now.left.list m.now.list }
{
    let _margins = m.margins();
    if set & !occurring != 0 {
        return false;
    }
    rule.left.divides(m)
}

/// Whether a monomial is the one to stop at, where there is one.
fn is_at(m: &Monomial, stop: Option<&Monomial>) -> bool
    requires { IfSome (option_map (λ form. form.now) stop)
        (λ form. HaveOneShape m.now form) }
    ensures same { OnTrue result (option_map (λ form. form.now) stop.entry ≡ Some m.now) }
    ensures differs { OnFalse result (option_map (λ form. form.now) stop.entry ≢ Some m.now) }
{
    match stop {
        Some(form) => m.is_same(form),
        None => false,
    }
}

/// The sets of the symbols of all left sides.
fn left_sets(alloc: Global, rules: &[Rule]) -> Result<Vec<u128>, OutOfMemory>
    ensures { IfOk result (λ sets. AreLeftSets rules.now sets.items) }
{
    let mut sets = Vec::with_capacity(alloc, rules.len())?;
    for rule in rules {
        sets.push(rule.left.symbols())?;
    }
    Ok(sets)
}

impl Rules {
    /// The empty list for a matrix and an order.
    pub fn new(alloc: Global, matrix: &Matrix, order: Order) -> Result<Rules, OutOfMemory>
        ensures matrix { IfOk result (λ l. l.matrix ≡ matrix.now) }
        ensures order { IfOk result (λ l. l.order ≡ order) }
        ensures empty { IfOk result (λ l. l.rules ≡ []) }
    {
        let _rows = matrix.rows();
        Ok(Rules {
            matrix: matrix.try_copy(alloc)?,
            order,
            rules: Vec::new(alloc),
            sets: Vec::new(alloc),
        })
    }

    /// The list of these rules.
    pub fn of_rules(
        alloc: Global,
        matrix: &Matrix,
        order: Order,
        rules: Vec<Rule>,
    ) -> Result<Rules, OutOfMemory>
        requires shape { (k : ℕ) (rule : code.Rule) → slice_get rules.items k ≡ Some rule →
            RuleSuits matrix.now rule }
        requires valid { ValidRules order matrix.now (map sides rules.items) }
        requires few { length rules.items ≤ most_rules }
        ensures matrix { IfOk result (λ l. l.matrix ≡ matrix.now) }
        ensures order { IfOk result (λ l. l.order ≡ order) }
        ensures rules { IfOk result (λ l. l.rules ≡ map sides rules.items) }
    {
        let _rows = matrix.rows();
        Ok(Rules {
            matrix: matrix.try_copy(alloc)?,
            order,
            sets: left_sets(alloc, rules.as_slice())?,
            rules,
        })
    }

    /// Adds a rule at the end. After a refusal the list is as it was, and the rule is dropped.
    pub fn push(&mut self, rule: Rule) -> Result<(), OutOfMemory>
        requires shape { RuleSuits self.old.matrix rule }
        requires valid { IsRuleOf self.old.order self.old.matrix (sides rule) }
        requires few { length self.old.rules < most_rules }
        ensures added { OnOk result
            (self.new ≡ record self.old { rules = self.old.rules ++ sides rule ∷ [] }) }
        ensures kept { OnErr result (self.new ≡ self.old) }
    {
        self.sets.reserve(1)?;
        let set = rule.left.symbols();
        self.rules.push(rule)?;
        self.sets.push_reserved(set);
        Ok(())
    }

    /// The number of rules, at most 1,000,064.
    pub fn len(&self) -> u32
        ensures rules { result ≡ length self.now.rules }
        ensures sound { AreRules self.now }
    {
        self.rules.len() as u32
    }

    /// The matrix.
    pub fn matrix(&self) -> &Matrix
        ensures { result.now ≡ self.now.matrix }
    {
        &self.matrix
    }

    /// The order of monomials.
    pub fn order(&self) -> Order
        ensures { result ≡ self.now.order }
    {
        self.order
    }

    /// The rule of a number, from 0.
    pub fn get(&self, k: u32) -> &Rule
        requires { k < length self.now.rules }
        ensures rule { slice_get self.now.rules k ≡ Some (sides result.now) }
        ensures shape { RuleSuits self.now.matrix result.now }
        ensures sound { AreRules self.now }
    {
        &self.rules[k as usize]
    }

    /// The number of the first rule whose left side divides a monomial, and that of rules where
    /// none does. Every search for a rule is this one.
    fn first(&self, m: &Monomial) -> u32
        requires { Suits self.now.matrix m.now }
        ensures first { IsFirst self.now.rules result m.now.list }
        ensures within { result ≤ length self.now.rules }
    {
        let occurring = m.symbols();
        for (k, set) in self.sets.iter().enumerate() {
            if fits(&self.rules[k], *set, occurring, m) {
                return k as u32;
            }
        }
        self.rules.len() as u32
    }

    /// Rewrites a monomial once by rule k, which counts from 0, and answers true. Where the rule's
    /// left side doesn't divide, nothing changes and the answer is false. It takes no memory.
    pub fn step(&self, k: u32, m: &mut Monomial) -> bool
        requires rule { k < length self.now.rules }
        requires shape { Suits self.now.matrix m.old }
        requires light { IsLight self.now.matrix m.old.list }
        ensures stepped { OnTrue result (Step self.now.rules k m.old.list m.new.list) }
        ensures refused { OnFalse result
            ((p : List ℕ) → Step self.now.rules k m.old.list p → ⊥) }
        ensures kept { OnFalse result (m.new ≡ m.old) }
        ensures shape { Suits self.now.matrix m.new }
        ensures weight { weights self.now.matrix m.new.list ≡ weights self.now.matrix m.old.list }
    {
        let rule = self.get(k);
        m.rewrite(&rule.left, &rule.right)
    }

    /// Rewrites a monomial by the first rule that fits, again and again, until none does, or until
    /// it is the one to stop at, which no rule fits. The answer is whether it is that one. It takes
    /// no memory.
    fn reduce_until(&self, m: &mut Monomial, stop: Option<&Monomial>) -> bool
        requires shape { Suits self.now.matrix m.old }
        requires light { IsLight self.now.matrix m.old.list }
        requires stop_shape { IfSome (option_map (λ form. form.now) stop)
            (λ form. Suits self.now.matrix form) }
        requires irreducible { IfSome (option_map (λ form. form.now) stop)
            (λ form. IsFirst self.now.rules (length self.now.rules) form.list) }
        ensures normal { (trace : List ℕ) × NormalBy self.now.rules trace m.old.list m.new.list }
        ensures irreducible { IsFirst self.now.rules (length self.now.rules) m.new.list }
        ensures same { OnTrue result (option_map (λ form. form.now) stop.entry ≡ Some m.new) }
        ensures differs { OnFalse result
            (option_map (λ form. form.now) stop.entry ≢ Some m.new) }
        ensures shape { Suits self.now.matrix m.new }
        ensures weight { weights self.now.matrix m.new.list ≡ weights self.now.matrix m.old.list }
    {
        let rules = self.len();
        loop {
            if is_at(m, stop) {
                return true;
            }
            let k = self.first(m);
            if k == rules {
                return false;
            }
            self.step(k, m);
        }
    }

    /// Brings a monomial to its normal form: the first rule that fits, again and again, until
    /// none does. It takes no memory.
    pub fn reduce(&self, m: &mut Monomial)
        requires shape { Suits self.now.matrix m.old }
        requires light { IsLight self.now.matrix m.old.list }
        ensures normal { (trace : List ℕ) × NormalBy self.now.rules trace m.old.list m.new.list }
        ensures irreducible { IsFirst self.now.rules (length self.now.rules) m.new.list }
        ensures shape { Suits self.now.matrix m.new }
        ensures weight { weights self.now.matrix m.new.list ≡ weights self.now.matrix m.old.list }
    {
        self.reduce_until(m, None);
    }

    /// Brings a monomial to its normal form, as `reduce` does, beside one that no rule fits: where
    /// it becomes that one, the rules aren't searched once more. The answer is whether it has
    /// become that one. It takes no memory.
    pub fn reduce_beside(&self, m: &mut Monomial, form: &Monomial) -> bool
        requires shape { Suits self.now.matrix m.old }
        requires light { IsLight self.now.matrix m.old.list }
        requires form_shape { Suits self.now.matrix form.now }
        requires irreducible { IsFirst self.now.rules (length self.now.rules) form.now.list }
        ensures normal { (trace : List ℕ) × NormalBy self.now.rules trace m.old.list m.new.list }
        ensures same { OnTrue result (m.new.list ≡ form.now.list) }
        ensures differs { OnFalse result (m.new.list ≡ form.now.list → ⊥) }
        ensures shape { Suits self.now.matrix m.new }
        ensures weight { weights self.now.matrix m.new.list ≡ weights self.now.matrix m.old.list }
    {
        self.reduce_until(m, Some(form))
    }

    /// The normal form of a monomial, and the numbers of the rules that lead there: the first
    /// rule that fits, again and again, until none does.
    pub fn normal(&self, alloc: Global, m: &Monomial) -> Result<(Monomial, Trace), OutOfMemory>
        requires shape { Suits self.now.matrix m.now }
        requires light { IsLight self.now.matrix m.now.list }
        ensures normal { IfOk result
            (λ end. NormalBy self.now.rules end.1 m.now.list end.0.list) }
        ensures shape { IfOk result (λ end. Suits self.now.matrix end.0) }
    {
        let rules = self.len();
        let mut form = m.try_copy(alloc)?;
        let mut steps = Vec::new(alloc);
        loop {
            let k = self.first(&form);
            if k == rules {
                return Ok((form, Trace { steps }));
            }
            steps.push(k)?;
            self.step(k, &mut form);
        }
    }
}
