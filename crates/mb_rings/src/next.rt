//! The next ring.

ghost use Rattle.std.specs.Prelude.{◌≡◌, ◌≤◌, IfErr, IfOk, List, OnOk, length, ℕ};
ghost use Rattle.mb_matrix.specs.Ascending.{Ascends};
ghost use Rattle.mb_rings.specs.Walk.{most_tables};
ghost use Rattle.mb_rings.specs.loops.Found.{Finds, IsSearchFault};
ghost use Rattle.mb_tables.specs.Lists.{In};
ghost use Rattle.mb_tables.specs.Step.{IsNear};

use crate::expand::expand;
use crate::fault::WalkFault;
use crate::visited::Visited;
use mb_outside::Gate;
use mb_tables::{Moves, Table};
use std::alloc::Global;

/// The tables that are one step from a ring and new, in ascending order.
///
/// The gate is passed before each table of the ring is expanded, with the number of tables in
/// earlier rings and its place in its ring added up.
pub fn next_ring<G: Gate>(
    alloc: Global,
    ring: &[Table],
    moves: &Moves,
    limit: u32,
    visited: &mut Visited,
    gate: &G,
) -> Result<Vec<Table>, WalkFault>
    requires widths { (u : List ℕ) → In u ring.now → length u ≡ moves.now.width }
    requires known { length ring.now ≤ length visited.old }
    requires room { length visited.old ≤ limit }
    requires small { limit ≤ most_tables }
    ensures found { IfOk result (λ next. Finds (IsNear moves.now.rows ring.now)
        visited.old visited.new next.items) }
    ensures ascending { IfOk result (λ next. Ascends next.items) }
    ensures room { OnOk result (length visited.new ≤ limit) }
    ensures refused { IfErr result (IsSearchFault (IsNear moves.now.rows ring.now)
        limit visited.old) }
{
    let earlier = visited.len() - ring.len();
    let mut next = Vec::new(alloc);
    for (place, table) in ring.iter().enumerate() {
        gate.pass(0, (earlier + place) as u64);
        expand(table, moves, limit, visited, &mut next)?;
    }
    next.sort_unstable();
    Ok(next)
}
