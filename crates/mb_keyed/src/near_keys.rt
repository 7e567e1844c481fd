//! The keys of the tables one step from a table.
//!
//! They are listed before any of them is claimed. A step looks at the counts and at nothing else,
//! so none has to wait for a word that is far from the processor.

ghost use Rattle.std.specs.Prelude.{◌≡◌, ◌↔◌, ◌⊎◌, List, OnOk, length, ℕ};
ghost use Rattle.mb_keyed.specs.loops.Graph.{IsKeyIn};
ghost use Rattle.mb_keyed.specs.loops.Keyed.{digits_in};
ghost use Rattle.mb_keyed.specs.loops.Needs.{AreNeeds, IsStepOf};
ghost use Rattle.mb_keyed.specs.loops.Worked.{Gains, HasKeyedSteps, IsKeyed, keys_in};
ghost use Rattle.mb_matrix.specs.Key.{IsDelta, key_of};
ghost use Rattle.mb_tables.specs.Lists.{In};
ghost use Rattle.mb_tables.specs.Step.{Adds, Moved, OneApart};

use crate::keyed_graph::KeyedGraph;
use crate::needs::{Need, has, needs_between};
use crate::ranked::Ranked;
use crate::step_list::StepOf;
use mb_matrix::moved_key;
use mb_tables::{Move, OutOfMemory, Sign};

/// Adds the key of what the move makes of a table, where this is a table; that one has the rank.
#[inline(always)]
fn push_step(
    graph: &KeyedGraph<'_>,
    counts: &[u32],
    z: &Move,
    needs: &[Need],
    sign: Sign,
    key: u64,
    delta: u64,
    rank: u64,
    near: &mut Vec<Ranked>,
) -> Result<(), OutOfMemory>
    requires needs { AreNeeds (length counts.now) sign z.now needs.now }
    requires key { key ≡ key_of (digits_in graph.now.fiber) counts.now }
    requires delta { IsDelta (key_of (digits_in graph.now.fiber)) (digits_in graph.now.fiber) z.now
        delta }
    requires keyed { (v : List ℕ) → Moved sign counts.now z.now v →
        IsKeyed (digits_in graph.now.fiber) v }
    ensures { OnOk result (Gains (IsKeyIn graph.now (Moved sign counts.now z.now)) near.old.items
        near.new.items) }
{
    if has(counts, needs) {
        let key = moved_key(key, delta, sign);
        near.push(Ranked { key, rank })?;
    }
    Ok(())
}

/// Adds the keys of what the move, added and subtracted, makes of a table.
#[inline(always)]
fn push_both(
    graph: &KeyedGraph<'_>,
    counts: &[u32],
    z: &Move,
    step: StepOf,
    needs: &[Need],
    key: u64,
    rank: u64,
    near: &mut Vec<Ranked>,
) -> Result<(), OutOfMemory>
    requires step { IsStepOf (digits_in graph.now.fiber) (length counts.now) z.now step needs.now }
    requires key { key ≡ key_of (digits_in graph.now.fiber) counts.now }
    requires keyed { (v : List ℕ) → Adds counts.now z.now v ⊎ Adds v z.now counts.now →
        IsKeyed (digits_in graph.now.fiber) v }
    ensures { OnOk result (Gains
        (IsKeyIn graph.now (λ v. Adds counts.now z.now v ⊎ Adds v z.now counts.now))
        near.old.items near.new.items) }
{
    let plus = needs_between(needs, step.first, step.middle);
    let minus = needs_between(needs, step.middle, step.end);
    let up = rank.wrapping_add(step.rank_delta);
    let down = rank.wrapping_sub(step.rank_delta);
    push_step(
        graph,
        counts,
        z,
        plus,
        Sign::Plus,
        key,
        step.delta,
        up,
        near,
    )?;
    push_step(
        graph,
        counts,
        z,
        minus,
        Sign::Minus,
        key,
        step.delta,
        down,
        near,
    )
}

/// Lists the keys of the tables one step from a table, which has this key and this rank, in place
/// of what the list had. Where memory is wanting, the list has some of them.
pub fn list_near(
    graph: &KeyedGraph<'_>,
    counts: &[u32],
    key: u64,
    rank: u64,
    near: &mut Vec<Ranked>,
) -> Result<(), OutOfMemory>
    requires keyed { HasKeyedSteps (digits_in graph.now.fiber) graph.now.moves.width
        graph.now.moves.rows counts.now }
    requires key { key ≡ key_of (digits_in graph.now.fiber) counts.now }
    ensures { OnOk result ((key : ℕ) → In key (keys_in near.new.items)
        ↔ IsKeyIn graph.now (OneApart graph.now.moves.rows counts.now) key) }
{
    near.clear();
    let steps = graph.steps();
    let list = steps.list.as_slice();
    let needs = steps.needs.as_slice();
    for (k, z) in graph.moves().as_slice().iter().enumerate() {
        push_both(graph, counts, z, list[k], needs, key, rank, near)?;
    }
    Ok(())
}
