//! The run: pairs take turns, and where their normal forms differ, a rule is born.

ghost use Rattle.std.specs.Bool.{OnTrue};
ghost use Rattle.std.specs.Prelude.{◌≡◌, ◌<◌, ◌≤◌, ◌+◌, ◌-◌, IfErr, IfOk, List, OnOk, length, true, ℕ};
ghost use Rattle.mb_completion.specs.Faults.{Stops};
ghost use Rattle.mb_completion.specs.Limits.{most_looks};
ghost use Rattle.mb_completion.specs.Run.{AreLight, Finished, RunEnds};
ghost use Rattle.mb_completion.specs.Start.{births_of};
ghost use Rattle.mb_completion.specs.loops.Going.{GoesOn, pairs_before};
ghost use Rattle.mb_completion.specs.loops.Looking.{HasLooked, IsBorn, IsHeavyPair};
ghost use Rattle.mb_order.specs.Peak.{left_of, sides_of};
ghost use Rattle.mb_order.specs.Rewriting.{made};
ghost use Rattle.mb_order.specs.Weight.{IsLight, Suits, weights};
ghost use Rattle.mb_rules.specs.Limits.{most_rules};
ghost use Rattle.mb_rules.specs.NormalForm.{IsFirst, NormalBy};
ghost use Rattle.mb_rules.specs.RuleList.{cmp_of};
ghost use Rattle.mb_tables.specs.Vectors.{greater, shares, within};

use crate::fault::CompleteFault;
use crate::start::first_rules;
use mb_matrix::Matrix;
use mb_order::{Monomial, Order};
use mb_rules::{Rule, Rules};
use mb_tables::OutOfMemory;
use std::alloc::Global;
use std::cmp::Ordering;

/// The least common multiple of the left sides of two rules.
pub fn peak(alloc: Global, rules: &Rules, i: u32, j: u32) -> Result<Monomial, OutOfMemory>
    requires first { i < length rules.now.rules }
    requires second { j < length rules.now.rules }
    ensures peak { IfOk result
        (λ m. m.list ≡ greater (left_of rules.now.rules i) (left_of rules.now.rules j)) }
    ensures shape { IfOk result (λ m. Suits rules.now.matrix m) }
{
    let low = rules.get(i);
    let high = rules.get(j);
    low.left.lcm(alloc, &high.left)
}

/// Rewrites a monomial by a rule whose left side divides it.
pub fn rewrite(rules: &Rules, k: u32, m: &mut Monomial)
    requires rule { k < length rules.now.rules }
    requires shape { Suits rules.now.matrix m.old }
    requires light { IsLight rules.now.matrix m.old.list }
    requires divides { within (left_of rules.now.rules k) m.old.list ≡ true }
    ensures made { m.new.list ≡ made (sides_of rules.now.rules k) m.old.list }
    ensures light { IsLight rules.now.matrix m.new.list }
    ensures shape { Suits rules.now.matrix m.new }
    ensures weight { weights rules.now.matrix m.new.list ≡ weights rules.now.matrix m.old.list }
{
    let rule = rules.get(k);
    m.rewrite(&rule.left, &rule.right);
}

/// Rewrites a monomial by a rule whose left side divides it, and brings it to normal form.
fn lower(rules: &Rules, k: u32, m: &mut Monomial)
    requires rule { k < length rules.now.rules }
    requires shape { Suits rules.now.matrix m.old }
    requires light { IsLight rules.now.matrix m.old.list }
    requires divides { within (left_of rules.now.rules k) m.old.list ≡ true }
    ensures normal { (trace : List ℕ) × NormalBy rules.now.rules trace
        (made (sides_of rules.now.rules k) m.old.list) m.new.list }
    ensures irreducible { IsFirst rules.now.rules (length rules.now.rules) m.new.list }
    ensures shape { Suits rules.now.matrix m.new }
    ensures weight { weights rules.now.matrix m.new.list ≡ weights rules.now.matrix m.old.list }
{
    rewrite(rules, k, m);
    rules.reduce(m);
}

/// The same beside a monomial that no rule fits. The answer is whether the normal form is that
/// monomial.
fn lower_beside(rules: &Rules, k: u32, m: &mut Monomial, form: &Monomial) -> bool
    requires rule { k < length rules.now.rules }
    requires shape { Suits rules.now.matrix m.old }
    requires light { IsLight rules.now.matrix m.old.list }
    requires divides { within (left_of rules.now.rules k) m.old.list ≡ true }
    requires form_shape { Suits rules.now.matrix form.now }
    requires irreducible { IsFirst rules.now.rules (length rules.now.rules) form.now.list }
    ensures normal { (trace : List ℕ) × NormalBy rules.now.rules trace
        (made (sides_of rules.now.rules k) m.old.list) m.new.list }
    ensures same { OnTrue result (m.new.list ≡ form.now.list) }
    ensures shape { Suits rules.now.matrix m.new }
    ensures weight { weights rules.now.matrix m.new.list ≡ weights rules.now.matrix m.old.list }
{
    rewrite(rules, k, m);
    rules.reduce_beside(m, form)
}

/// Where two monomials differ, adds the rule from the larger to the smaller.
fn add(rules: &mut Rules, p: Monomial, q: Monomial) -> Result<(), OutOfMemory>
    requires first { Suits rules.old.matrix p }
    requires second { Suits rules.old.matrix q }
    requires weight { weights rules.old.matrix p.list ≡ weights rules.old.matrix q.list }
    requires few { length rules.old.rules < most_rules }
    requires light { AreLight rules.old.matrix rules.old.rules }
    requires light_first { IsLight rules.old.matrix p.list }
    ensures light { OnOk result (AreLight rules.old.matrix rules.new.rules) }
    ensures born { OnOk result (IsBorn (cmp_of rules.old.order rules.old.matrix) p.list q.list
        rules.old.rules rules.new.rules) }
    ensures matrix { rules.new.matrix ≡ rules.old.matrix }
    ensures order { rules.new.order ≡ rules.old.order }
{
    let _rules = rules.len();
    match rules.order().compare(&p, &q) {
        Ordering::Equal => Ok(()),
        Ordering::Greater => rules.push(Rule { left: p, right: q }),
        Ordering::Less => rules.push(Rule { left: q, right: p }),
    }
}

/// Looks at a pair: brings the two sides of its peak to normal form, and adds what they make.
fn look(alloc: Global, rules: &mut Rules, i: u32, j: u32) -> Result<(), CompleteFault>
    requires first { i < length rules.old.rules }
    requires second { j < length rules.old.rules }
    requires few { length rules.old.rules < most_rules }
    requires light { AreLight rules.old.matrix rules.old.rules }
    ensures light { OnOk result (AreLight rules.old.matrix rules.new.rules) }
    ensures looked { OnOk result
        (HasLooked rules.old.matrix rules.old.order i j rules.old.rules rules.new.rules) }
    ensures matrix { rules.new.matrix ≡ rules.old.matrix }
    ensures order { rules.new.order ≡ rules.old.order }
    ensures heavy { IfErr result (IsHeavyPair rules.old.matrix rules.old.rules i j) }
{
    let m = peak(alloc, rules, i, j)?;
    if !m.is_light(rules.matrix()) {
        return Err(CompleteFault::Exponent { pair: (i, j) });
    }
    let mut p = m.try_copy(alloc)?;
    lower(rules, i, &mut p);
    let mut q = m;
    if lower_beside(rules, j, &mut q, &p) {
        return Ok(());
    }
    add(rules, p, q)?;
    Ok(())
}

/// Whether the left sides of two rules share a symbol.
pub fn is_shared(rules: &Rules, i: u32, j: u32) -> bool
    requires first { i < length rules.now.rules }
    requires second { j < length rules.now.rules }
    ensures { result ≡ shares (left_of rules.now.rules i) (left_of rules.now.rules j) }
{
    let low = rules.get(i);
    let high = rules.get(j);
    low.left.shares(&high.left)
}

/// The turn of a pair: it is passed where the left sides share no symbol, and else looked at.
/// The answer is the number of looks since.
fn take_turn(
    alloc: Global,
    rules: &mut Rules,
    i: u32,
    j: u32,
    pairs: u32,
    looks: u32,
) -> Result<u32, CompleteFault>
    requires first { i < j }
    requires second { j < length rules.old.rules }
    requires looks { looks ≤ pairs }
    requires few { length rules.old.rules + (pairs - looks) ≤ most_rules }
    requires place { looks ≡ length (pairs_before rules.old.rules i j) }
    requires light { AreLight rules.old.matrix rules.old.rules }
    ensures light { IfOk result (λ done. AreLight rules.old.matrix rules.new.rules) }
    ensures goes_on { IfOk result (λ done. GoesOn rules.old.matrix rules.old.order pairs
        rules.old.rules looks rules.new.rules done) }
    ensures place { IfOk result (λ done. done ≡ length (pairs_before rules.new.rules (i + 1) j)) }
    ensures matrix { rules.new.matrix ≡ rules.old.matrix }
    ensures order { rules.new.order ≡ rules.old.order }
    ensures stops { IfErr result
        (Stops rules.old.matrix rules.old.order (pairs - looks) rules.old.rules looks) }
{
    if !is_shared(rules, i, j) {
        return Ok(looks);
    }
    if looks == pairs {
        return Err(CompleteFault::Unfinished {
            looked: looks,
            left: (i, j),
        });
    }
    look(alloc, rules, i, j)?;
    Ok(looks + 1)
}

/// The turns of all pairs of a rule with those born before it.
fn take_row(
    alloc: Global,
    rules: &mut Rules,
    j: u32,
    pairs: u32,
    looks: u32,
) -> Result<u32, CompleteFault>
    requires row { j < length rules.old.rules }
    requires looks { looks ≤ pairs }
    requires few { length rules.old.rules + (pairs - looks) ≤ most_rules }
    requires place { looks ≡ length (pairs_before rules.old.rules 0 j) }
    requires light { AreLight rules.old.matrix rules.old.rules }
    ensures light { IfOk result (λ done. AreLight rules.old.matrix rules.new.rules) }
    ensures goes_on { IfOk result (λ done. GoesOn rules.old.matrix rules.old.order pairs
        rules.old.rules looks rules.new.rules done) }
    ensures place { IfOk result (λ done. done ≡ length (pairs_before rules.new.rules 0 (j + 1))) }
    ensures matrix { rules.new.matrix ≡ rules.old.matrix }
    ensures order { rules.new.order ≡ rules.old.order }
    ensures stops { IfErr result
        (Stops rules.old.matrix rules.old.order (pairs - looks) rules.old.rules looks) }
{
    let mut done = looks;
    for i in 0..j {
        done = take_turn(alloc, rules, i, j, pairs, done)?;
    }
    Ok(done)
}

/// The run: the rules at its end, and the number of looks.
pub fn run(
    alloc: Global,
    matrix: &Matrix,
    order: Order,
    pairs: u32,
) -> Result<(Rules, u32), CompleteFault>
    requires { pairs ≤ most_looks }
    ensures finished { IfOk result
        (λ end. RunEnds matrix.now order pairs (Finished end.0.rules end.1)) }
    ensures light { IfOk result (λ end. AreLight matrix.now end.0.rules) }
    ensures matrix { IfOk result (λ end. end.0.matrix ≡ matrix.now) }
    ensures order { IfOk result (λ end. end.0.order ≡ order) }
    ensures stops { IfErr result (Stops matrix.now order pairs (births_of matrix.now) 0) }
{
    let _cells = matrix.rows();
    let mut rules = first_rules(alloc, matrix, order)?;
    let mut looks = 0u32;
    let mut j = 0u32;
    while j < rules.len() {
        looks = take_row(alloc, &mut rules, j, pairs, looks)?;
        j += 1;
    }
    Ok((rules, looks))
}
