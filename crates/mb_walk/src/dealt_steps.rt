//! The tables one step from a table, and from those of a share, are dealt.

ghost use Rattle.std.specs.Prelude.{◌+◌, ◌<◌, ◌^◌, ◌≡◌, ◌≤◌, List, length, ℕ};
ghost use Rattle.mb_tables.specs.Lists.{In};
ghost use Rattle.mb_tables.specs.Step.{IsNear, Moved, OneApart};
ghost use Rattle.mb_walk.specs.loops.Piles.{AreOwned, Deals, IsDealer, kept, seen_by};

use crate::dealer::{Dealer, deal};
use crate::owner::Owner;
use mb_outside::Gate;
use mb_tables::{Move, Moves, Sign, Table};

/// Deals what the move makes of the table, where this is a table. The table is moved and moved
/// back.
#[inline(always)]
fn deal_step(
    owners: &[Owner],
    table: &mut Table,
    z: &Move,
    sign: Sign,
    room: usize,
    dealer: &mut Dealer,
)
    requires parts { AreOwned (length owners.now) (kept owners.now) }
    requires some { 1 ≤ length owners.now }
    requires small { room < 2 ^ 32 }
    requires width { length table.old ≡ length z.now }
    requires ready { length dealer.old.piles.items ≡ length owners.now }
    requires ours { IsDealer (length owners.now) room (seen_by owners.now) dealer.old }
    ensures ours { IsDealer (length owners.now) room (seen_by owners.now) dealer.new }
    ensures ready { length dealer.new.piles.items ≡ length owners.now }
    ensures dealt { Deals room (seen_by owners.now) (Moved sign table.old z.now)
        dealer.old dealer.new }
    ensures back { table.new ≡ table.old }
{
    if !table.apply(z, sign) {
        return;
    }
    deal(owners, table, room, dealer);
    table.take_back(z, sign);
}

/// Deals the tables one step from a table. The table is moved and moved back.
fn deal_steps(owners: &[Owner], table: &mut Table, moves: &Moves, room: usize, dealer: &mut Dealer)
    requires parts { AreOwned (length owners.now) (kept owners.now) }
    requires some { 1 ≤ length owners.now }
    requires small { room < 2 ^ 32 }
    requires width { length table.old ≡ moves.now.width }
    requires ready { length dealer.old.piles.items ≡ length owners.now }
    requires ours { IsDealer (length owners.now) room (seen_by owners.now) dealer.old }
    ensures ours { IsDealer (length owners.now) room (seen_by owners.now) dealer.new }
    ensures ready { length dealer.new.piles.items ≡ length owners.now }
    ensures dealt { Deals room (seen_by owners.now) (OneApart moves.now.rows table.old)
        dealer.old dealer.new }
{
    for (k, z) in moves.as_slice().iter().enumerate() {
        deal_step(owners, table, z, Sign::Plus, room, dealer);
        deal_step(owners, table, z, Sign::Minus, room, dealer);
    }
}

/// Deals the tables one step from a table, unless the worker is to stop: where it wants memory, or
/// has dealt more than there is room for.
fn deal_table<G: Gate>(
    owners: &[Owner],
    table: &Table,
    moves: &Moves,
    number: u32,
    item: u64,
    room: usize,
    gate: &G,
    dealer: &mut Dealer,
)
    requires parts { AreOwned (length owners.now) (kept owners.now) }
    requires some { 1 ≤ length owners.now }
    requires small { room < 2 ^ 32 }
    requires width { length table.now ≡ moves.now.width }
    requires ready { length dealer.old.piles.items ≡ length owners.now }
    requires ours { IsDealer (length owners.now) room (seen_by owners.now) dealer.old }
    ensures ours { IsDealer (length owners.now) room (seen_by owners.now) dealer.new }
    ensures ready { length dealer.new.piles.items ≡ length owners.now }
    ensures dealt { Deals room (seen_by owners.now) (OneApart moves.now.rows table.now)
        dealer.old dealer.new }
{
    if dealer.is_short || dealer.dealt > room {
        return;
    }
    gate.pass(number, item);
    match table.try_copy() {
        Ok(mut scratch) => deal_steps(owners, &mut scratch, moves, room, dealer),
        Err(_) => dealer.is_short = true,
    }
}

/// Deals the tables one step from those of a share: the worker passes the gate before each.
pub fn deal_share<G: Gate>(
    owners: &[Owner],
    share: &[Table],
    moves: &Moves,
    number: u32,
    first: u64,
    room: usize,
    gate: &G,
    dealer: &mut Dealer,
)
    requires parts { AreOwned (length owners.now) (kept owners.now) }
    requires some { 1 ≤ length owners.now }
    requires small { room < 2 ^ 32 }
    requires widths { (u : List ℕ) → In u share.now → length u ≡ moves.now.width }
    requires items { first + length share.now < 2 ^ 64 }
    requires ready { length dealer.old.piles.items ≡ length owners.now }
    requires ours { IsDealer (length owners.now) room (seen_by owners.now) dealer.old }
    ensures ours { IsDealer (length owners.now) room (seen_by owners.now) dealer.new }
    ensures dealt { Deals room (seen_by owners.now) (IsNear moves.now.rows share.now)
        dealer.old dealer.new }
{
    for (place, table) in share.iter().enumerate() {
        let item = first + place as u64;
        deal_table(owners, table, moves, number, item, room, gate, dealer);
    }
}
