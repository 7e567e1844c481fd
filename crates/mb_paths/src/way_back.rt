//! The path from the first table of a search tree to one of its tables.

ghost use Rattle.std.specs.Bool.{OnTrue, OnFalse};
ghost use Rattle.std.specs.Prelude.{◌≡◌, ◌<◌, ◌≤◌, [], IfNone, IfOk, IfSome, List, length, slice_index_or, ℕ, ℤ};
ghost use Rattle.mb_certificate.specs.Valid.{MovesBy};
ghost use Rattle.mb_paths.specs.loops.Tree.{AreBorn, GoesOn, GoesOnBy};
ghost use Rattle.mb_rings.specs.ShortestPath.{IsLeastPath, turn};
ghost use Rattle.mb_tables.specs.Lists.{In};
ghost use Rattle.mb_tables.specs.Step.{Moved};

use crate::tree::Tree;
use mb_tables::{Move, Moves, OutOfMemory, Sign, Table};
use std::alloc::Global;

/// Whether the move, added or subtracted, makes one table of the other. The first is moved and
/// moved back.
fn makes(from: &mut Table, z: &Move, sign: Sign, to: &Table) -> bool
    requires { length from.old ≡ length z.now }
    ensures yes { OnTrue result (Moved sign from.old z.now to.now) }
    ensures no { OnFalse result (Moved sign from.old z.now to.now → ⊥) }
    ensures back { from.new ≡ from.old }
{
    let _counts = to.len();
    if !from.apply(z, sign) {
        return false;
    }
    let same = *from == *to;
    from.take_back(z, sign);
    same
}

/// The first signed number, in the order 1, -1, 2, -2, .., that makes one table of the other. The
/// first is moved and moved back.
fn first_step(from: &mut Table, to: &Table, moves: &Moves) -> Option<i64>
    requires { length from.old ≡ moves.now.width }
    ensures made { IfSome result (λ step. MovesBy moves.now.rows step from.old to.now) }
    ensures first { IfSome result (λ step.
        (other : ℤ) → MovesBy moves.now.rows other from.old to.now → turn step ≤ turn other) }
    ensures none { IfNone result
        ((step : ℤ) → MovesBy moves.now.rows step from.old to.now → ⊥) }
{
    for (k, z) in moves.as_slice().iter().enumerate() {
        let number = k as i64 + 1;
        if makes(from, z, Sign::Plus, to) {
            return Some(number);
        }
        if makes(from, z, Sign::Minus, to) {
            return Some(-number);
        }
    }
    None
}

/// The last step of the least path to the table at a place, whose parent stands at another.
fn step_between(tree: &Tree, moves: &Moves, parent: usize, place: usize) -> Result<i64, OutOfMemory>
    requires parent { parent < length tree.now.tables.items }
    requires place { place < length tree.now.tables.items }
    requires widths { (u : List ℕ) → In u tree.now.tables.items → length u ≡ moves.now.width }
    requires goes_on { GoesOn moves.now.rows (slice_index_or tree.now.tables.items 0 [])
        (slice_index_or tree.now.tables.items parent [])
        (slice_index_or tree.now.tables.items place []) }
    requires reached { (path : List ℤ) × IsLeastPath moves.now.rows
        (slice_index_or tree.now.tables.items 0 []) path
        (slice_index_or tree.now.tables.items parent []) }
    ensures { IfOk result (λ step. GoesOnBy moves.now.rows
        (slice_index_or tree.now.tables.items 0 [])
        (slice_index_or tree.now.tables.items parent []) step
        (slice_index_or tree.now.tables.items place [])) }
{
    let mut from = tree.tables[parent].try_copy()?;
    Ok(first_step(&mut from, &tree.tables[place], moves).unwrap())
}

/// The least path from the first table of a search tree to the one at a place.
pub fn path_to(
    alloc: Global,
    tree: &Tree,
    moves: &Moves,
    place: usize,
) -> Result<Vec<i64>, OutOfMemory>
    requires place { place < length tree.now.tables.items }
    requires widths { (u : List ℕ) → In u tree.now.tables.items → length u ≡ moves.now.width }
    requires born { AreBorn moves.now.rows (slice_index_or tree.now.tables.items 0 [])
        tree.now.tables.items tree.now.parents.items }
    ensures { IfOk result (λ steps. IsLeastPath moves.now.rows
        (slice_index_or tree.now.tables.items 0 []) steps.items
        (slice_index_or tree.now.tables.items place [])) }
{
    let mut steps = Vec::new(alloc);
    let mut here = place;
    while here != 0 {
        let parent = tree.parents[here] as usize;
        steps.push(step_between(tree, moves, parent, here)?)?;
        here = parent;
    }
    steps.reverse();
    Ok(steps)
}
