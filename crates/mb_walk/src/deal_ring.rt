//! The tables one step from a ring are dealt by several workers, a share each.

ghost use Rattle.std.specs.Bool.{OnFalse, OnTrue};
ghost use Rattle.std.specs.Prelude.{
  ◌+◌,
  ◌<◌,
  ◌^◌,
  ◌≡◌,
  ◌≤◌,
  All,
  IfErr,
  IfOk,
  List,
  OnOk,
  [],
  length,
  slice_index_or,
  true,
  ℕ,
};
ghost use Rattle.mb_rings.specs.Share.{share_of};
ghost use Rattle.mb_rings.specs.Walk.{most_tables};
ghost use Rattle.mb_rings.specs.loops.Found.{IsSearchFault};
ghost use Rattle.mb_tables.specs.Lists.{In};
ghost use Rattle.mb_tables.specs.Step.{IsNear};
ghost use Rattle.mb_walk.specs.declared.dealer.Dealer.{Dealer};
ghost use Rattle.mb_walk.specs.loops.Piles.{
  AreDealt,
  AreOwned,
  HasDealt,
  IsDealer,
  IsIdle,
  IsOver,
  IsWhole,
  dealt_by,
  kept,
  seen_by,
};

use crate::dealer::Dealer;
use crate::dealt_steps::deal_share;
use crate::owner::Owner;
use mb_outside::Gate;
use mb_rings::{Visited, WalkFault, share_of};
use mb_tables::{Moves, OutOfMemory, Table};
use std::alloc::Global;
use std::thread;
use std::thread::Threads;

/// So many workers that have dealt nothing.
fn open(alloc: Global, count: usize) -> Result<Vec<Dealer>, OutOfMemory>
    ensures count { IfOk result (λ dealers. length dealers.items ≡ count) }
    ensures idle { IfOk result (λ dealers. All IsIdle dealers.items) }
{
    let mut dealers = Vec::new(alloc);
    for _ in 0..count {
        dealers.push(Dealer {
            piles: Vec::new(alloc),
            dealt: 0,
            is_short: false,
        })?;
    }
    Ok(dealers)
}

/// Gives a worker an empty pile for each owner. It is marked as wanting memory where there is none.
fn lay_out(alloc: Global, owners: usize, dealer: &mut Dealer) -> bool
    requires idle { IsIdle dealer.old }
    ensures ready { OnTrue result (length dealer.new.piles.items ≡ owners) }
    ensures short { OnFalse result (dealer.new.is_short ≡ true) }
    ensures none { All (λ pile. pile ≡ []) dealer.new.piles.items }
    ensures count { dealer.new.dealt ≡ 0 }
{
    for _ in 0..owners {
        if dealer.piles.push(Visited::new(alloc)).is_err() {
            dealer.is_short = true;
            return false;
        }
    }
    true
}

/// Deals the tables one step from the share of a worker.
fn work<G: Gate>(
    alloc: Global,
    owners: &[Owner],
    ring: &[Table],
    moves: &Moves,
    earlier: u64,
    room: usize,
    count: usize,
    gate: &G,
    number: usize,
    dealer: &mut Dealer,
)
    requires parts { AreOwned (length owners.now) (kept owners.now) }
    requires some { 1 ≤ length owners.now }
    requires small { room < 2 ^ 32 }
    requires widths { (u : List ℕ) → In u ring.now → length u ≡ moves.now.width }
    requires small_ring { length ring.now < 2 ^ 32 }
    requires items { earlier < 2 ^ 32 }
    requires there { number < count }
    requires few { count ≤ 64 }
    requires idle { IsIdle dealer.old }
    ensures ours { IsDealer (length owners.now) room (seen_by owners.now) dealer.new }
    ensures dealt { HasDealt room (seen_by owners.now)
        (IsNear moves.now.rows (share_of ring.now number count)) dealer.new }
{
    let (from, share) = share_of(ring, number, count);
    if !share.is_empty() && lay_out(alloc, owners.len(), dealer) {
        let first = earlier + from as u64;
        deal_share(
            owners,
            share,
            moves,
            number as u32,
            first,
            room,
            gate,
            dealer,
        );
    }
}

/// Lends each worker to a thread, which deals the tables one step from its share.
fn lend<R: Threads + Sync, G: Gate + Sync>(
    rt: &R,
    alloc: Global,
    owners: &[Owner],
    ring: &[Table],
    moves: &Moves,
    earlier: u64,
    room: usize,
    gate: &G,
    dealers: &mut [Dealer],
)
    requires parts { AreOwned (length owners.now) (kept owners.now) }
    requires some { 1 ≤ length owners.now }
    requires small { room < 2 ^ 32 }
    requires widths { (u : List ℕ) → In u ring.now → length u ≡ moves.now.width }
    requires small_ring { length ring.now < 2 ^ 32 }
    requires items { earlier < 2 ^ 32 }
    requires few { length dealers.old ≤ 64 }
    requires idle { All IsIdle dealers.old }
    ensures ours { All (IsDealer (length owners.now) room (seen_by owners.now)) dealers.new }
    ensures dealt { (i : ℕ) (d : Dealer) → i < length dealers.old →
        HasDealt room (seen_by owners.now)
        (IsNear moves.now.rows (share_of ring.now i (length dealers.old)))
        (slice_index_or dealers.new i d) }
{
    let count = dealers.len();
    thread::for_each_mut(
        rt,
        dealers,
        count.min(ring.len()).max(1),
        &|number, dealer| {
            work(
                alloc, owners, ring, moves, earlier, room, count, gate, number, dealer,
            )
        },
    );
}

/// Whether each worker is whole: it wants no memory, and has dealt no more than there is room for.
fn judge(dealers: &[Dealer], room: usize, limit: u32) -> Result<(), WalkFault>
    requires small { limit ≤ most_tables }
    ensures whole { OnOk result (All (IsWhole room) dealers.now) }
    ensures refused { IfErr result (λ fault. IsOver room limit dealers.now fault) }
{
    for dealer in dealers {
        if dealer.is_short {
            return Err(WalkFault::OutOfMemory);
        }
        if dealer.dealt > room {
            return Err(WalkFault::TooLarge { seen: limit + 1 });
        }
    }
    Ok(())
}

/// Deals the tables one step from a ring that no owner keeps, by as many workers as owners.
pub fn deal_ring<R: Threads + Sync, G: Gate + Sync>(
    rt: &R,
    alloc: Global,
    owners: &[Owner],
    ring: &[Table],
    moves: &Moves,
    earlier: u64,
    room: usize,
    limit: u32,
    gate: &G,
) -> Result<Vec<Dealer>, WalkFault>
    requires parts { AreOwned (length owners.now) (kept owners.now) }
    requires some { 1 ≤ length owners.now }
    requires few { length owners.now ≤ 64 }
    requires room { limit ≤ length (seen_by owners.now) + room }
    requires small { limit ≤ most_tables }
    requires small_room { room ≤ limit }
    requires widths { (u : List ℕ) → In u ring.now → length u ≡ moves.now.width }
    requires small_ring { length ring.now < 2 ^ 32 }
    requires items { earlier < 2 ^ 32 }
    ensures dealt { IfOk result (λ dealers. AreDealt (length owners.now) (seen_by owners.now)
        (IsNear moves.now.rows ring.now) dealers.items) }
    ensures refused { IfErr result (IsSearchFault (IsNear moves.now.rows ring.now)
        limit (seen_by owners.now)) }
{
    let mut dealers = open(alloc, owners.len())?;
    lend(
        rt,
        alloc,
        owners,
        ring,
        moves,
        earlier,
        room,
        gate,
        dealers.as_mut_slice(),
    );
    judge(dealers.as_slice(), room, limit)?;
    Ok(dealers)
}
