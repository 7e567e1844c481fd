//! An owner: a part of the visited tables falls to it.

ghost use Rattle.std.specs.List.Sorted.{IsPermutation};
ghost use Rattle.std.specs.Prelude.{◌<◌, ◌∷◌, ◌≡◌, ◌≤◌, IfOk, [], length};
ghost use Rattle.mb_walk.specs.Owned.{mixed, owner_of};
ghost use Rattle.mb_walk.specs.loops.Piles.{AreOwned, kept, seen_by};

use mb_rings::Visited;
use mb_tables::{OutOfMemory, Table};
use std::alloc::Global;

/// An owner of tables. One element holds all that a thread changes.
#[derive(Drop)]
pub struct Owner {
    /// The tables that it keeps.
    pub visited: Visited,
    /// Those of them that joined last.
    pub next: Vec<Table>,
    /// Whether memory was wanting.
    pub is_short: bool,
}

/// The number of 64 bits that the counts of a table make. The factor is the golden ratio, so that
/// neighbouring tables have numbers far apart.
fn mixed(table: &Table) -> u64
    ensures { result ≡ mixed 0 table.now }
{
    let mut number: u64 = 0;
    for (cell, count) in table.as_slice().iter().enumerate() {
        number = number
            .wrapping_mul(11_400_714_819_323_198_485)
            .wrapping_add(u64::from(*count));
    }
    number
}

/// The owner of a table, among so many.
pub fn owner_of(table: &Table, owners: usize) -> usize
    requires some { 1 ≤ owners }
    ensures owner { result ≡ owner_of owners table.now }
    ensures there { result < owners }
{
    (mixed(table) / 4_294_967_296) as usize % owners
}

/// The tables of an owner at the start: the first table, where it is the owner's.
fn first_of(
    alloc: Global,
    start: &Table,
    number: usize,
    owners: usize,
) -> Result<Visited, OutOfMemory>
    requires some { 1 ≤ owners }
    ensures one { IfOk result (λ visited. number ≡ owner_of owners start.now →
        IsPermutation (start.now ∷ []) visited) }
    ensures none { IfOk result (λ visited. (number ≡ owner_of owners start.now → ⊥) →
        visited ≡ []) }
{
    let mut visited = Visited::new(alloc);
    if owner_of(start, owners) == number {
        visited.insert(start.try_copy()?)?;
    }
    Ok(visited)
}

/// So many owners, who keep the first table together.
pub fn open_owners(alloc: Global, start: &Table, owners: usize) -> Result<Vec<Owner>, OutOfMemory>
    requires some { 1 ≤ owners }
    ensures count { IfOk result (λ list. length list.items ≡ owners) }
    ensures parts { IfOk result (λ list. AreOwned owners (kept list.items)) }
    ensures seen { IfOk result (λ list. IsPermutation (start.now ∷ []) (seen_by list.items)) }
{
    let mut list = Vec::new(alloc);
    for number in 0..owners {
        let visited = first_of(alloc, start, number, owners)?;
        list.push(Owner {
            visited,
            next: Vec::new(alloc),
            is_short: false,
        })?;
    }
    Ok(list)
}
