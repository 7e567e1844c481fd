//! The reduction after a run: of each minimal left side one rule, with the normal form of its
//! right side, in ascending order.

ghost use Rattle.std.specs.Prelude.{◌≡◌, ◌<◌, ◌≤◌, ◌+◌, ◌⊎◌, IfOk, OnOk, length, map, slice_index_or, true, ℕ};
ghost use Rattle.std.specs.Bool.{OnFalse, OnTrue};
ghost use Rattle.std.specs.declared.cmp.Ordering.TheVariants.{Equal, Greater, Less};
ghost use Rattle.mb_completion.specs.Basis.{IsReducedBasis};
ghost use Rattle.mb_completion.specs.loops.Keeping.{IsKeeping};
ghost use Rattle.mb_completion.specs.loops.Kept.{IsKept, put};
ghost use Rattle.mb_completion.specs.Run.{AreLight, AreLightPeaks};
ghost use Rattle.mb_order.specs.Monomial.{HaveOneShape};
ghost use Rattle.mb_order.specs.Order.{monomial_cmp};
ghost use Rattle.mb_order.specs.Peak.{left_of};
ghost use Rattle.mb_order.specs.Weight.{IsLight, symbols_of};
ghost use Rattle.mb_rules.proofs.RulesInCode.{no_rule};
ghost use Rattle.mb_rules.specs.Classes.{ReachLeast};
ghost use Rattle.mb_rules.specs.ReducedBasis.{IsMinimalLeft};
ghost use Rattle.mb_rules.specs.RuleList.{cmp_of};
ghost use Rattle.mb_rules.specs.declared.rule.Rule as code;
ghost use Rattle.mb_tables.specs.Lists.{In};
ghost use Rattle.mb_rules.specs.Sides.{RuleSuits, sides};
ghost use Rattle.mb_tables.specs.Vectors.{within};

use mb_order::{Monomial, Order};
use mb_rules::{Rule, Rules};
use mb_tables::OutOfMemory;
use std::alloc::Global;
use std::cmp::Ordering;

/// Whether the left side of a rule divides that of another and is not the same.
fn is_below(rules: &Rules, q: u32, k: u32) -> bool
    requires divisor { q < length rules.now.rules }
    requires rule { k < length rules.now.rules }
    ensures divides { OnTrue result
        (within (left_of rules.now.rules q) (left_of rules.now.rules k) ≡ true) }
    ensures differs { OnTrue result
        (left_of rules.now.rules q ≡ left_of rules.now.rules k → ⊥) }
    ensures same { OnFalse result
        (within (left_of rules.now.rules q) (left_of rules.now.rules k) ≡ true
        → left_of rules.now.rules q ≡ left_of rules.now.rules k) }
{
    let divisor = rules.get(q);
    let rule = rules.get(k);
    if !divisor.left.divides(&rule.left) {
        return false;
    }
    !rule.left.divides(&divisor.left)
}

/// Whether no left side divides that of a rule but the same.
fn is_minimal(rules: &Rules, k: u32) -> bool
    requires { k < length rules.now.rules }
    ensures minimal { OnTrue result
        (IsMinimalLeft rules.now.rules (left_of rules.now.rules k)) }
    ensures divided { OnFalse result
        (IsMinimalLeft rules.now.rules (left_of rules.now.rules k) → ⊥) }
{
    for q in 0..rules.len() {
        if is_below(rules, q, k) {
            return false;
        }
    }
    true
}

/// The rule with the normal form of its right side.
fn lowered(alloc: Global, rules: &Rules, k: u32) -> Result<Rule, OutOfMemory>
    requires rule { k < length rules.now.rules }
    requires minimal { IsMinimalLeft rules.now.rules (left_of rules.now.rules k) }
    requires light { IsLight rules.now.matrix (left_of rules.now.rules k) }
    ensures left { IfOk result (λ r. r.left.list ≡ left_of rules.now.rules k) }
    ensures kept { IfOk result (λ r. IsKept rules.now.rules (sides r)) }
    ensures shape { IfOk result (RuleSuits rules.now.matrix) }
{
    let rule = rules.get(k);
    let mut right = rule.right.try_copy(alloc)?;
    rules.reduce(&mut right);
    Ok(Rule {
        left: rule.left.try_copy(alloc)?,
        right,
    })
}

/// The first place whose left side is not below a monomial.
fn place_of(order: Order, kept: &[Rule], left: &Monomial) -> usize
    requires { (rule : code.Rule) → In rule kept.now → HaveOneShape rule.left left.now }
    ensures within { result ≤ length kept.now }
    ensures below { (i : ℕ) → i < result → monomial_cmp order left.now.margins
        (slice_index_or (map sides kept.now) i no_rule).0 left.now.list ≡ Less }
    ensures above { result < length kept.now → monomial_cmp order left.now.margins
        (slice_index_or (map sides kept.now) result no_rule).0 left.now.list ≡ Less → ⊥ }
{
    for (place, rule) in kept.iter().enumerate() {
        match order.compare(&rule.left, left) {
            Ordering::Less => {}
            Ordering::Equal => return place,
            Ordering::Greater => return place,
        }
    }
    kept.len()
}

/// Whether the rule at a place has a left side.
fn has_left(order: Order, kept: &[Rule], place: usize, left: &Monomial) -> bool
    requires shapes { (rule : code.Rule) → In rule kept.now → HaveOneShape rule.left left.now }
    requires within { place ≤ length kept.now }
    requires above { place < length kept.now → monomial_cmp order left.now.margins
        (slice_index_or (map sides kept.now) place no_rule).0 left.now.list ≡ Less → ⊥ }
    ensures there { OnTrue result (place < length kept.now) }
    ensures equal { OnTrue result (monomial_cmp order left.now.margins
        (slice_index_or (map sides kept.now) place no_rule).0 left.now.list ≡ Equal) }
    ensures later { OnFalse result (place < length kept.now → monomial_cmp order left.now.margins
        (slice_index_or (map sides kept.now) place no_rule).0 left.now.list ≡ Greater) }
{
    if place == kept.len() {
        return false;
    }
    let rule = &kept[place];
    match order.compare(&rule.left, left) {
        Ordering::Less => false,
        Ordering::Equal => true,
        Ordering::Greater => false,
    }
}

/// Puts a rule in its place among rules with ascending left sides, unless its left side is there.
fn insert(order: Order, kept: &mut Vec<Rule>, rule: Rule) -> Result<(), OutOfMemory>
    requires { (other : code.Rule) → In other kept.old.items → HaveOneShape other.left rule.left }
    ensures put { OnOk result (map sides kept.new.items
        ≡ put (monomial_cmp order rule.left.margins) (sides rule) (map sides kept.old.items)) }
    ensures members { (other : code.Rule) → In other kept.new.items →
        In other kept.old.items ⊎ (other ≡ rule) }
    ensures long { length kept.new.items ≤ length kept.old.items + 1 }
{
    let place = place_of(order, kept.as_slice(), &rule.left);
    if has_left(order, kept.as_slice(), place, &rule.left) {
        return Ok(());
    }
    kept.insert(place, rule)?;
    Ok(())
}

/// Keeps a rule if its left side is minimal, with the normal form of its right side.
fn keep_one(alloc: Global, rules: &Rules, k: u32, kept: &mut Vec<Rule>) -> Result<(), OutOfMemory>
    requires rule { k < length rules.now.rules }
    requires light { AreLight rules.now.matrix rules.now.rules }
    requires keeping { IsKeeping rules.now.matrix rules.now.order rules.now.rules k kept.old.items }
    ensures { OnOk result
        (IsKeeping rules.now.matrix rules.now.order rules.now.rules (k + 1) kept.new.items) }
{
    let _rules = rules.len();
    if !is_minimal(rules, k) {
        return Ok(());
    }
    let rule = lowered(alloc, rules, k)?;
    insert(rules.order(), kept, rule)
}

/// The kept rules, ascending by left side.
fn keep_all(alloc: Global, rules: &Rules) -> Result<Vec<Rule>, OutOfMemory>
    requires light { AreLight rules.now.matrix rules.now.rules }
    ensures { IfOk result (λ v. IsKeeping rules.now.matrix rules.now.order rules.now.rules
        (length rules.now.rules) v.items) }
{
    let mut kept = Vec::new(alloc);
    for k in 0..rules.len() {
        keep_one(alloc, rules, k, &mut kept)?;
    }
    Ok(kept)
}

/// The reduced rules of a finished run.
pub fn reduced_rules(alloc: Global, rules: &Rules) -> Result<Rules, OutOfMemory>
    requires light { AreLight rules.now.matrix rules.now.rules }
    requires peaks { AreLightPeaks rules.now.matrix rules.now.rules }
    requires reach { ReachLeast rules.now.matrix.rows (symbols_of rules.now.matrix)
        (cmp_of rules.now.order rules.now.matrix) rules.now.rules }
    ensures matrix { IfOk result (λ l. l.matrix ≡ rules.now.matrix) }
    ensures order { IfOk result (λ l. l.order ≡ rules.now.order) }
    ensures basis { IfOk result (λ l. IsReducedBasis rules.now.matrix rules.now.order l.rules) }
    ensures peaks { IfOk result (λ l. AreLightPeaks rules.now.matrix l.rules) }
{
    let _rules = rules.len();
    let kept = keep_all(alloc, rules)?;
    Rules::of_rules(alloc, rules.matrix(), rules.order(), kept)
}
