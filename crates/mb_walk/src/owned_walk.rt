//! The walk by the tables themselves, by several workers.

ghost use Rattle.std.specs.Prelude.{◌≡◌, ◌<◌, ◌≤◌, ◌^◌, All, IfOk, None, length};
ghost use Rattle.mb_matrix.specs.Matrix.{IsMove, margins_of};
ghost use Rattle.mb_rings.specs.Walk.{most_tables, walk_cause, walk_of};
ghost use Rattle.mb_tables.specs.Answers.{Gives};

use crate::owner::open_owners;
use crate::piles::next_by_piles;
use mb_matrix::Matrix;
use mb_outside::Gate;
use mb_rings::{Rings, WalkFault};
use mb_tables::{Moves, Table};
use std::alloc::Global;
use std::thread::Threads;

/// The rings of a start by moves of a matrix, as `walk` gives them, by workers who deal tables into
/// piles; as many owners keep all tables that were met. They have no claims.
pub fn walk_by_tables<R: Threads + Sync, G: Gate + Sync>(
    rt: &R,
    alloc: Global,
    matrix: &Matrix,
    moves: &Moves,
    start: &Table,
    limit: u32,
    workers: u32,
    gate: &G,
) -> Result<Rings, WalkFault>
    requires cells { length start.now ≡ length matrix.now.columns }
    requires width { moves.now.width ≡ length matrix.now.columns }
    requires moves { All (IsMove matrix.now) moves.now.rows }
    requires margins { All (λ margin. margin < 2 ^ 32) (margins_of matrix.now start.now) }
    requires some { 1 ≤ limit }
    requires small { limit ≤ most_tables }
    requires some_worker { 1 ≤ workers }
    requires few_workers { workers ≤ 64 }
    ensures rings { Gives walk_cause (λ walked. walked.rings) result
        (walk_of limit matrix.now moves.now.rows start.now) }
    ensures claims { IfOk result (λ walked. walked.claims ≡ None) }
{
    prove_eq!(matrix.cols(), start.len());
    let mut owners = open_owners(alloc, start, workers as usize)?;
    let mut ring = Vec::new(alloc);
    ring.push(start.try_copy()?)?;
    let mut rings = Vec::new(alloc);
    let mut seen = 1;
    while !ring.is_empty() {
        let list = owners.as_mut_slice();
        let next = next_by_piles(rt, alloc, ring.as_slice(), moves, seen, limit, list, gate)?;
        seen += next.len();
        rings.push(ring)?;
        ring = next;
    }
    Ok(Rings::from_lists(rings, seen as u32))
}
