//! The next ring, by workers and owners: workers deal tables into piles, which owners take over.

ghost use Rattle.std.specs.Prelude.{
  ◌+◌,
  ◌<◌,
  ◌^◌,
  ◌≡◌,
  ◌≤◌,
  All,
  IfErr,
  IfOk,
  List,
  OnOk,
  false,
  length,
  slice_index_or,
  ℕ,
};
ghost use Rattle.mb_matrix.specs.Ascending.{Ascends};
ghost use Rattle.mb_rings.specs.Ring.{tables_of};
ghost use Rattle.mb_rings.specs.Walk.{most_tables};
ghost use Rattle.mb_rings.specs.loops.Found.{Finds, IsSearchFault};
ghost use Rattle.mb_tables.specs.Lists.{In};
ghost use Rattle.mb_tables.specs.Step.{IsNear};
ghost use Rattle.mb_walk.specs.declared.owner.Owner.{Owner};
ghost use Rattle.mb_walk.specs.loops.Piles.{
  AreOwned,
  ArePiles,
  IsDealt,
  IsDealtBy,
  Merges,
  joined,
  kept,
  seen_by,
};

use crate::deal_ring::deal_ring;
use crate::dealer::Dealer;
use crate::merge::merge;
use crate::owner::Owner;
use mb_outside::Gate;
use mb_rings::WalkFault;
use mb_tables::{Moves, OutOfMemory, Table};
use std::alloc::Global;
use std::thread;
use std::thread::Threads;

/// Lends each owner to a thread, which takes over the piles that fall to it.
fn merge_all<R: Threads + Sync>(rt: &R, dealers: &[Dealer], threads: usize, owners: &mut [Owner])
    requires some { 1 ≤ threads }
    ensures count { length owners.new ≡ length owners.old }
    ensures merged { (i : ℕ) (d : Owner) → i < length owners.old → Merges (IsDealt dealers.now i)
        (slice_index_or owners.old i d) (slice_index_or owners.new i d) }
{
    thread::for_each_mut(
        rt,
        owners,
        threads,
        &|number, owner| merge(dealers, number, owner),
    );
}

/// Whether some owner wants memory.
fn is_any_short(owners: &[Owner]) -> bool
    ensures { result ≡ false → All (λ owner. owner.is_short ≡ false) owners.now }
{
    for owner in owners {
        if owner.is_short {
            return true;
        }
    }
    false
}

/// Joins the lists of the owners.
fn join(alloc: Global, owners: &mut [Owner]) -> Result<Vec<Table>, OutOfMemory>
    ensures ring { IfOk result (λ ring. ring.items ≡ tables_of (joined owners.old)) }
    ensures kept { kept owners.new ≡ kept owners.old }
{
    let mut ring = Vec::new(alloc);
    for owner in owners.iter_mut() {
        ring.append(&mut owner.next)?;
    }
    Ok(ring)
}

/// The owners take over what was dealt. The list is that of the tables that are new.
fn take_over<R: Threads + Sync>(
    rt: &R,
    alloc: Global,
    dealers: &[Dealer],
    threads: usize,
    owners: &mut [Owner],
) -> Result<Vec<Table>, OutOfMemory>
    requires some { 1 ≤ threads }
    requires owners { 1 ≤ length owners.old }
    requires parts { AreOwned (length owners.old) (kept owners.old) }
    requires piles { ArePiles (length owners.old) dealers.now }
    ensures count { length owners.new ≡ length owners.old }
    ensures parts { OnOk result (AreOwned (length owners.old) (kept owners.new)) }
    ensures found { IfOk result (λ next. Finds (IsDealtBy dealers.now)
        (seen_by owners.old) (seen_by owners.new) next.items) }
{
    merge_all(rt, dealers, threads, owners);
    if is_any_short(owners) {
        return Err(OutOfMemory);
    }
    let next = join(alloc, owners)?;
    Ok(next)
}

/// The tables that are one step from a ring and new, in ascending order, by as many workers as
/// there are owners, who keep the tables seen so far.
///
/// Each worker has a share of the ring. Before it expands a table it passes the gate, with the
/// number of the share, from 0, and the number of tables that stand before this one in all rings.
pub fn next_by_piles<R: Threads + Sync, G: Gate + Sync>(
    rt: &R,
    alloc: Global,
    ring: &[Table],
    moves: &Moves,
    seen: usize,
    limit: u32,
    owners: &mut [Owner],
    gate: &G,
) -> Result<Vec<Table>, WalkFault>
    requires widths { (u : List ℕ) → In u ring.now → length u ≡ moves.now.width }
    requires known { length ring.now ≤ seen }
    requires seen { seen ≡ length (seen_by owners.old) }
    requires room { seen ≤ limit }
    requires small { limit ≤ most_tables }
    requires some { 1 ≤ length owners.old }
    requires few { length owners.old ≤ 64 }
    requires parts { AreOwned (length owners.old) (kept owners.old) }
    ensures found { IfOk result (λ next. Finds (IsNear moves.now.rows ring.now)
        (seen_by owners.old) (seen_by owners.new) next.items) }
    ensures ascending { IfOk result (λ next. Ascends next.items) }
    ensures room { IfOk result (λ next. length next.items + seen ≤ limit) }
    ensures count { length owners.new ≡ length owners.old }
    ensures parts { OnOk result (AreOwned (length owners.old) (kept owners.new)) }
    ensures refused { IfErr result (IsSearchFault (IsNear moves.now.rows ring.now)
        limit (seen_by owners.old)) }
{
    let earlier = (seen - ring.len()) as u64;
    let room = limit as usize - seen;
    let threads = owners.len().min(ring.len()).max(1);
    let dealers = deal_ring(rt, alloc, owners, ring, moves, earlier, room, limit, gate)?;
    let mut next = take_over(rt, alloc, dealers.as_slice(), threads, owners)?;
    if next.len() > room {
        return Err(WalkFault::TooLarge { seen: limit + 1 });
    }
    next.sort_unstable();
    Ok(next)
}
