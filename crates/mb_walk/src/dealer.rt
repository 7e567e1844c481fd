//! A worker that deals tables into piles, one for each owner.

ghost use Rattle.std.specs.Prelude.{
  ◌+◌,
  ◌<◌,
  ◌^◌,
  ◌≡◌,
  ◌≤◌,
  List,
  OnErr,
  OnOk,
  [],
  false,
  length,
  slice_index_or,
  ℕ,
};
ghost use Rattle.mb_tables.specs.Lists.{In};
ghost use Rattle.mb_walk.specs.Owned.{owner_of};
ghost use Rattle.mb_walk.specs.loops.Piles.{
  AreOwned,
  Deals,
  IsDealer,
  IsPut,
  dealt_by,
  kept,
  seen_by,
};

use crate::owner::{Owner, owner_of};
use mb_rings::Visited;
use mb_tables::{OutOfMemory, Table};

/// A worker of one ring. One element holds all that a thread changes.
#[derive(Drop)]
pub struct Dealer {
    /// The tables that it found new, in a pile for each owner.
    pub piles: Vec<Visited>,
    /// How many these are.
    pub dealt: usize,
    /// Whether memory was wanting.
    pub is_short: bool,
}

/// Puts a new table into a pile.
fn put(piles: &mut Vec<Visited>, pile: usize, table: &Table) -> Result<(), OutOfMemory>
    requires there { pile < length piles.old.items }
    requires new { In table.now (slice_index_or piles.old.items pile []) → ⊥ }
    ensures put { OnOk result (IsPut pile table.now piles.old.items piles.new.items) }
    ensures kept { OnErr result (piles.new.items ≡ piles.old.items) }
{
    let copy = table.try_copy()?;
    piles[pile].insert(copy)
}

/// Deals a table, where no owner keeps it and no pile has it. More than one table beyond those
/// there is room for are not dealt.
pub fn deal(owners: &[Owner], table: &Table, room: usize, dealer: &mut Dealer)
    requires parts { AreOwned (length owners.now) (kept owners.now) }
    requires some { 1 ≤ length owners.now }
    requires small { room < 2 ^ 32 }
    requires ready { length dealer.old.piles.items ≡ length owners.now }
    requires ours { IsDealer (length owners.now) room (seen_by owners.now) dealer.old }
    ensures ours { IsDealer (length owners.now) room (seen_by owners.now) dealer.new }
    ensures ready { length dealer.new.piles.items ≡ length owners.now }
    ensures dealt { Deals room (seen_by owners.now) (λ v. v ≡ table.now) dealer.old dealer.new }
{
    if dealer.dealt > room {
        return;
    }
    let owner = owner_of(table, owners.len());
    if owners[owner].visited.contains(table) || dealer.piles[owner].contains(table) {
        return;
    }
    match put(&mut dealer.piles, owner, table) {
        Ok(()) => dealer.dealt += 1,
        Err(_) => dealer.is_short = true,
    }
}
