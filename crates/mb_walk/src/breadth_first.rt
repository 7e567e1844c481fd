//! The walk by one worker, ring by ring.

ghost use Rattle.std.specs.Prelude.{◌≡◌, ◌<◌, ◌≤◌, ◌^◌, All, IfOk, None, length};
ghost use Rattle.mb_matrix.specs.Matrix.{IsMove, margins_of};
ghost use Rattle.mb_rings.specs.Walk.{most_tables, walk_cause, walk_of};
ghost use Rattle.mb_tables.specs.Answers.{Gives};

use mb_matrix::Matrix;
use mb_outside::Gate;
use mb_rings::{Rings, Visited, WalkFault, next_ring};
use mb_tables::{Moves, Table};
use std::alloc::Global;

/// The rings of a start by moves of a matrix, as `walk` gives them, by one worker, number 0, who
/// keeps all tables that were met. They have no claims.
pub fn walk_alone<G: Gate>(
    alloc: Global,
    matrix: &Matrix,
    moves: &Moves,
    start: &Table,
    limit: u32,
    gate: &G,
) -> Result<Rings, WalkFault>
    requires cells { length start.now ≡ length matrix.now.columns }
    requires width { moves.now.width ≡ length matrix.now.columns }
    requires moves { All (IsMove matrix.now) moves.now.rows }
    requires margins { All (λ margin. margin < 2 ^ 32) (margins_of matrix.now start.now) }
    requires some { 1 ≤ limit }
    requires small { limit ≤ most_tables }
    ensures rings { Gives walk_cause (λ walked. walked.rings) result
        (walk_of limit matrix.now moves.now.rows start.now) }
    ensures claims { IfOk result (λ walked. walked.claims ≡ None) }
{
    prove_eq!(matrix.cols(), start.len());
    let mut visited = Visited::new(alloc);
    visited.insert(start.try_copy()?)?;
    let mut ring = Vec::new(alloc);
    ring.push(start.try_copy()?)?;
    let mut rings = Vec::new(alloc);
    while !ring.is_empty() {
        let next = next_ring(alloc, ring.as_slice(), moves, limit, &mut visited, gate)?;
        rings.push(ring)?;
        ring = next;
    }
    Ok(Rings::from_lists(rings, visited.len() as u32))
}
