//! The tables one step from a table.

ghost use Rattle.std.specs.Prelude.{◌≡◌, ◌≤◌, IfErr, OnOk, length};
ghost use Rattle.mb_rings.specs.Walk.{most_tables};
ghost use Rattle.mb_rings.specs.loops.Found.{FindsMore, IsSearchFault};
ghost use Rattle.mb_rings.specs.loops.InTurn.{AddsInTurn, turns_of};
ghost use Rattle.mb_tables.specs.Step.{Moved, OneApart};

use crate::fault::WalkFault;
use crate::visited::Visited;
use mb_tables::{Move, Moves, Sign, Table};

/// Adds the table to those visited and to the next ring, where it is new.
#[inline(never)]
fn keep_new(
    table: &Table,
    limit: u32,
    visited: &mut Visited,
    next: &mut Vec<Table>,
) -> Result<(), WalkFault>
    requires room { length visited.old ≤ limit }
    requires small { limit ≤ most_tables }
    ensures found { OnOk result (FindsMore (λ v. v ≡ table.now)
        visited.old visited.new next.old.items next.new.items) }
    ensures room { OnOk result (length visited.new ≤ limit) }
    ensures refused { IfErr result (IsSearchFault (λ v. v ≡ table.now) limit visited.old) }
{
    if visited.contains(table) {
        return Ok(());
    }
    if visited.len() >= limit as usize {
        return Err(WalkFault::TooLarge { seen: limit + 1 });
    }
    visited.insert(table.try_copy()?)?;
    next.push(table.try_copy()?)?;
    Ok(())
}

/// Adds what the move makes of the table, where this is a table and new. The table is moved and
/// moved back.
#[inline(always)]
fn take_step(
    table: &mut Table,
    z: &Move,
    sign: Sign,
    limit: u32,
    visited: &mut Visited,
    next: &mut Vec<Table>,
) -> Result<(), WalkFault>
    requires width { length table.old ≡ length z.now }
    requires room { length visited.old ≤ limit }
    requires small { limit ≤ most_tables }
    ensures found { OnOk result (FindsMore (Moved sign table.old z.now)
        visited.old visited.new next.old.items next.new.items) }
    ensures room { OnOk result (length visited.new ≤ limit) }
    ensures refused { IfErr result (IsSearchFault (Moved sign table.old z.now) limit visited.old) }
    ensures back { OnOk result (table.new ≡ table.old) }
{
    if !table.apply(z, sign) {
        return Ok(());
    }
    keep_new(table, limit, visited, next)?;
    table.take_back(z, sign);
    Ok(())
}

/// Adds the tables that are one step from a table, where they are new: what move 1 makes of it,
/// added and then subtracted, then what move 2 does, and so on. The table is moved and moved back.
pub fn take_steps(
    table: &mut Table,
    moves: &Moves,
    limit: u32,
    visited: &mut Visited,
    next: &mut Vec<Table>,
) -> Result<(), WalkFault>
    requires width { length table.old ≡ moves.now.width }
    requires room { length visited.old ≤ limit }
    requires small { limit ≤ most_tables }
    ensures found { OnOk result (FindsMore (OneApart moves.now.rows table.old)
        visited.old visited.new next.old.items next.new.items) }
    ensures in_turn { OnOk result (AddsInTurn moves.now.rows table.old
        (turns_of (length moves.now.rows)) visited.old next.old.items next.new.items) }
    ensures room { OnOk result (length visited.new ≤ limit) }
    ensures refused { IfErr result (IsSearchFault (OneApart moves.now.rows table.old)
        limit visited.old) }
    ensures back { OnOk result (table.new ≡ table.old) }
{
    for z in moves.as_slice() {
        take_step(table, z, Sign::Plus, limit, visited, next)?;
        take_step(table, z, Sign::Minus, limit, visited, next)?;
    }
    Ok(())
}

/// Adds the tables that are one step from a table, where they are new.
pub fn expand(
    table: &Table,
    moves: &Moves,
    limit: u32,
    visited: &mut Visited,
    next: &mut Vec<Table>,
) -> Result<(), WalkFault>
    requires width { length table.now ≡ moves.now.width }
    requires room { length visited.old ≤ limit }
    requires small { limit ≤ most_tables }
    ensures found { OnOk result (FindsMore (OneApart moves.now.rows table.now)
        visited.old visited.new next.old.items next.new.items) }
    ensures room { OnOk result (length visited.new ≤ limit) }
    ensures refused { IfErr result (IsSearchFault (OneApart moves.now.rows table.now)
        limit visited.old) }
{
    let mut scratch = table.try_copy()?;
    take_steps(&mut scratch, moves, limit, visited, next)
}
