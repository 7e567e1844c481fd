//! The least path between two tables of equal margins, by moves that are given.

ghost use Rattle.std.specs.Bool.{OnFalse, OnTrue};
ghost use Rattle.std.specs.Prelude.{◌≡◌, ◌<◌, ◌≤◌, ◌^◌, ◌⊎◌, All, IfNone, IfSome, Some, length, slice_get};
ghost use Rattle.mb_matrix.specs.Matrix.{IsMove, margins_of};
ghost use Rattle.mb_paths.specs.Between.{Answers, most_between};
ghost use Rattle.mb_tables.specs.Lists.{In};

use crate::connection::Between;
use crate::tree::{Tree, expand_from, one_table};
use crate::way_back::path_to;
use mb_matrix::Matrix;
use mb_rings::WalkFault;
use mb_tables::{Moves, Table};
use std::alloc::Global;

/// The place of a table in a list.
fn place_of(tables: &[Table], table: &Table) -> Option<usize>
    ensures some { IfSome result (λ place. slice_get tables.now place ≡ Some table.now) }
    ensures none { IfNone result (In table.now tables.now → ⊥) }
{
    for (place, other) in tables.iter().enumerate() {
        if *other == *table {
            return Some(place);
        }
    }
    None
}

/// Whether the search goes on: it has tables to expand, and hasn't met the one sought.
fn goes_on(tree: &Tree, first: usize, sought: &Table) -> bool
    ensures on { OnTrue result (first < length tree.now.tables.items) }
    ensures missed { OnTrue result (In sought.now tree.now.visited → ⊥) }
    ensures over { OnFalse result
        ((length tree.now.tables.items ≤ first) ⊎ In sought.now tree.now.visited) }
{
    first < tree.tables.len() && !tree.visited.contains(sought)
}

/// The least path from one table to another of equal margins, by given moves of the matrix. Paths
/// are compared by length, and those of one length step by step: a lower number of a move comes
/// first, and of one move its sum before its difference (shortlex order).
///
/// Tables and moves have the matrix's cells, each move keeps all margins, and each margin of the
/// tables fits 32 bits. The limit is 1 to 100,000 tables.
///
/// `Apart`: all that the moves reach from the first table is within the limit, and the second is
/// missing there. `TooLarge`: the tables up to some distance from the first are within the limit
/// and the second is missing among them, and with those one step farther the limit is passed. Each
/// of the two comes exactly there. Want of memory can come in place of any answer.
pub fn between(
    alloc: Global,
    matrix: &Matrix,
    moves: &Moves,
    from: &Table,
    to: &Table,
    limit: u32,
) -> Result<Between, WalkFault>
    requires cells { length from.now ≡ length matrix.now.columns }
    requires same_cells { length to.now ≡ length matrix.now.columns }
    requires width { moves.now.width ≡ length matrix.now.columns }
    requires moves { All (IsMove matrix.now) moves.now.rows }
    requires same_margins { margins_of matrix.now from.now ≡ margins_of matrix.now to.now }
    requires margins { All (λ margin. margin < 2 ^ 32) (margins_of matrix.now from.now) }
    requires some { 1 ≤ limit }
    requires small { limit ≤ most_between }
    ensures { Answers limit matrix.now moves.now.rows from.now to.now result }
{
    prove_eq!(matrix.cols(), from.len());
    let mut tree = one_table(alloc, from)?;
    let mut first = 0;
    while goes_on(&tree, first, to) {
        let end = tree.tables.len();
        expand_from(&mut tree, first, moves, limit)?;
        first = end;
    }
    match place_of(tree.tables.as_slice(), to) {
        Some(place) => Ok(Between::Joined {
            steps: path_to(alloc, &tree, moves, place)?,
        }),
        None => Ok(Between::Apart),
    }
}
