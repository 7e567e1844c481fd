//! The joins of a made certificate.

ghost use Rattle.std.specs.Prelude.{◌≡◌, ◌<◌, ◌+◌, All, IfOk, OnOk, length};
ghost use Rattle.mb_certificate.specs.Certificate.{IsJoin};
ghost use Rattle.mb_completion.specs.Made.{AreNormalJoins, IsNormalJoin};
ghost use Rattle.mb_completion.specs.Run.{AreLightPeaks};
ghost use Rattle.mb_completion.specs.loops.Making.{AreJoining};
ghost use Rattle.mb_order.specs.Peak.{left_of};
ghost use Rattle.mb_order.specs.Weight.{IsLight};
ghost use Rattle.mb_tables.specs.Vectors.{greater};

use crate::run::{is_shared, peak, rewrite};
use crate::traces::trace_of;
use mb_certificate::Join;
use mb_rules::Rules;
use mb_tables::OutOfMemory;
use std::alloc::Global;

/// The join of two rules: how what they make of their peak comes to normal form.
fn join(alloc: Global, rules: &Rules, i: u32, j: u32) -> Result<Join, OutOfMemory>
    requires first { i < length rules.now.rules }
    requires second { j < length rules.now.rules }
    requires light { IsLight rules.now.matrix
        (greater (left_of rules.now.rules i) (left_of rules.now.rules j)) }
    ensures low { IfOk result (λ join. join.low ≡ i) }
    ensures high { IfOk result (λ join. join.high ≡ j) }
    ensures normal { IfOk result (IsNormalJoin rules.now.rules) }
    ensures sound { IfOk result IsJoin }
{
    let mut q = peak(alloc, rules, i, j)?;
    let mut p = q.try_copy(alloc)?;
    rewrite(rules, i, &mut p);
    rewrite(rules, j, &mut q);
    Ok(Join {
        low: i,
        high: j,
        low_steps: trace_of(alloc, rules, &p)?,
        high_steps: trace_of(alloc, rules, &q)?,
    })
}

/// Adds the join of a pair of rules, if their left sides share a symbol.
fn add_join(
    alloc: Global,
    rules: &Rules,
    i: u32,
    j: u32,
    joins: &mut Vec<Join>,
) -> Result<(), OutOfMemory>
    requires first { i < j }
    requires second { j < length rules.now.rules }
    requires peaks { AreLightPeaks rules.now.matrix rules.now.rules }
    requires so_far { AreJoining rules.now.rules i j joins.old.items }
    ensures { OnOk result (AreJoining rules.now.rules (i + 1) j joins.new.items) }
{
    if !is_shared(rules, i, j) {
        return Ok(());
    }
    joins.push(join(alloc, rules, i, j)?)?;
    Ok(())
}

/// Adds the joins of a rule with those before it.
fn add_row(alloc: Global, rules: &Rules, j: u32, joins: &mut Vec<Join>) -> Result<(), OutOfMemory>
    requires row { j < length rules.now.rules }
    requires peaks { AreLightPeaks rules.now.matrix rules.now.rules }
    requires so_far { AreJoining rules.now.rules 0 j joins.old.items }
    ensures { OnOk result (AreJoining rules.now.rules 0 (j + 1) joins.new.items) }
{
    for i in 0..j {
        add_join(alloc, rules, i, j, joins)?;
    }
    Ok(())
}

/// The joins of all pairs of rules whose left sides share a symbol, in the order of a run.
pub fn joins_of(alloc: Global, rules: &Rules) -> Result<Vec<Join>, OutOfMemory>
    requires { AreLightPeaks rules.now.matrix rules.now.rules }
    ensures normal { IfOk result (λ joins. AreNormalJoins rules.now.rules joins.items) }
    ensures sound { IfOk result (λ joins. All IsJoin joins.items) }
{
    let mut joins = Vec::new(alloc);
    for j in 0..rules.len() {
        add_row(alloc, rules, j, &mut joins)?;
    }
    Ok(joins)
}
