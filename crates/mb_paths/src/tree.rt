//! The breadth-first search tree of the fiber graph.

ghost use Rattle.std.specs.Prelude.{◌≡◌, ◌<◌, ◌≤◌, ◌+◌, ◌-◌, ◌++◌, ◌∷◌, [], IfErr, IfOk, List, OnOk, drop, length, replicate, slice_index_or, ℕ};
ghost use Rattle.std.specs.List.Sorted.{IsPermutation};
ghost use Rattle.mb_paths.specs.loops.Tree.{IsTree};
ghost use Rattle.mb_rings.specs.Walk.{most_tables};
ghost use Rattle.mb_rings.specs.loops.Found.{FindsMore, IsSearchFault};
ghost use Rattle.mb_tables.specs.Lists.{In};
ghost use Rattle.mb_tables.specs.Step.{IsNear, OneApart};

use mb_rings::{Visited, WalkFault, take_steps};
use mb_tables::{Moves, OutOfMemory, Table};
use std::alloc::Global;

/// A breadth-first search tree. The step from a table's parent isn't kept: it is the first one that
/// makes the table of its parent.
#[derive(Drop)]
pub struct Tree {
    /// The tables, in the order in which they were met.
    pub tables: Vec<Table>,
    /// For each table the place of its parent, the table that it was met from; 0 for the first.
    pub parents: Vec<u32>,
    /// The same tables.
    pub visited: Visited,
}

/// The tree of one table.
pub fn one_table(alloc: Global, start: &Table) -> Result<Tree, OutOfMemory>
    ensures tables { IfOk result (λ tree. tree.tables.items ≡ start.now ∷ []) }
    ensures parents { IfOk result (λ tree. tree.parents.items ≡ 0 ∷ []) }
    ensures visited { IfOk result (λ tree. IsPermutation (start.now ∷ []) tree.visited) }
{
    let mut visited = Visited::new(alloc);
    visited.insert(start.try_copy()?)?;
    Ok(Tree {
        tables: Vec::from_array(alloc, [start.try_copy()?])?,
        parents: Vec::from_array(alloc, [0u32])?,
        visited,
    })
}

/// Gives all further tables this parent.
fn note_parents(parents: &mut Vec<u32>, tables: usize, parent: u32) -> Result<(), OutOfMemory>
    requires { length parents.old.items ≤ tables }
    ensures { OnOk result (parents.new.items
        ≡ parents.old.items ++ replicate (tables - length parents.old.items) parent) }
{
    parents.resize(tables, parent)?;
    Ok(())
}

/// Adds the tables that are one step from the one at a place, where they are new.
fn expand_place(tree: &mut Tree, place: usize, moves: &Moves, limit: u32) -> Result<(), WalkFault>
    requires place { place < length tree.old.tables.items }
    requires width { length (slice_index_or tree.old.tables.items place []) ≡ moves.now.width }
    requires room { length tree.old.visited ≤ limit }
    requires small { limit ≤ most_tables }
    requires known { IsPermutation tree.old.tables.items tree.old.visited }
    requires tree { IsTree moves.now.rows tree.old.tables.items tree.old.parents.items place }
    ensures found { OnOk result (FindsMore
        (OneApart moves.now.rows (slice_index_or tree.old.tables.items place []))
        tree.old.visited tree.new.visited tree.old.tables.items tree.new.tables.items) }
    ensures tree { OnOk result
        (IsTree moves.now.rows tree.new.tables.items tree.new.parents.items (place + 1)) }
    ensures room { OnOk result (length tree.new.visited ≤ limit) }
    ensures refused { IfErr result (IsSearchFault
        (OneApart moves.now.rows (slice_index_or tree.old.tables.items place []))
        limit tree.old.visited) }
{
    let mut scratch = tree.tables[place].try_copy()?;
    take_steps(
        &mut scratch,
        moves,
        limit,
        &mut tree.visited,
        &mut tree.tables,
    )?;
    note_parents(&mut tree.parents, tree.tables.len(), place as u32)?;
    Ok(())
}

/// Adds the tables that are one step from those from a place on, where they are new.
pub fn expand_from(
    tree: &mut Tree,
    first: usize,
    moves: &Moves,
    limit: u32,
) -> Result<(), WalkFault>
    requires first { first ≤ length tree.old.tables.items }
    requires widths { (u : List ℕ) → In u tree.old.tables.items → length u ≡ moves.now.width }
    requires room { length tree.old.visited ≤ limit }
    requires small { limit ≤ most_tables }
    requires known { IsPermutation tree.old.tables.items tree.old.visited }
    requires tree { IsTree moves.now.rows tree.old.tables.items tree.old.parents.items first }
    ensures found { OnOk result (FindsMore
        (IsNear moves.now.rows (drop first tree.old.tables.items))
        tree.old.visited tree.new.visited tree.old.tables.items tree.new.tables.items) }
    ensures tree { OnOk result (IsTree moves.now.rows tree.new.tables.items tree.new.parents.items
        (length tree.old.tables.items)) }
    ensures room { OnOk result (length tree.new.visited ≤ limit) }
    ensures refused { IfErr result (IsSearchFault
        (IsNear moves.now.rows (drop first tree.old.tables.items)) limit tree.old.visited) }
{
    let end = tree.tables.len();
    for place in first..end {
        expand_place(tree, place, moves, limit)?;
    }
    Ok(())
}
