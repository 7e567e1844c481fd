//! A round over a ring: its tables are expanded by several workers, each with a pass of its own.

ghost use Rattle.std.specs.Bool.{OnFalse, OnTrue};
ghost use Rattle.std.specs.Prelude.{
  ◌++◌,
  ◌<◌,
  ◌^◌,
  ◌≡◌,
  ◌≤◌,
  ◌⊎◌,
  All,
  IfOk,
  List,
  OnErr,
  OnOk,
  [],
  false,
  length,
  reverse,
  slice_index_or,
  ℕ,
};
ghost use Rattle.mb_claims.specs.Claims.{IsRootOf};
ghost use Rattle.mb_claims.specs.Closed.{IsClosed};
ghost use Rattle.mb_keyed.specs.loops.Graph.{AreKeyed, IsKeyIn, IsKeyNear};
ghost use Rattle.mb_keyed.specs.loops.Rounds.{
  AreWorked,
  FallsTo,
  IsListed,
  IsNearBefore,
  IsNearShare,
  IsRound,
};
ghost use Rattle.mb_keyed.specs.loops.Worked.{
  Claims,
  IsIdle,
  IsWorkerOf,
  keys_in,
  keys_won,
  notes_made,
  numbers,
};
ghost use Rattle.mb_keyed.specs.declared.worker.Worker.{Worker};
ghost use Rattle.mb_tables.specs.Lists.{In};
ghost use Rattle.mb_tables.specs.Step.{IsNear};

use crate::gathered::{Left, gather_all};
use crate::key_totals::key_total;
use crate::keyed_graph::KeyedGraph;
use crate::opened::open;
use crate::ranked::Ranked;
use crate::shares::expand_share;
use crate::worker::Worker;
use mb_claims::{Root, Shards};
use mb_outside::Gate;
use mb_rings::share_of;
use mb_tables::{OutOfMemory, Table};
use std::alloc::Global;
use std::thread;
use std::thread::Threads;

/// Whether a share falls to a pass, of so many: to the pass of its number, and to pass 0 where
/// there is none.
fn falls_to(passes: usize, number: usize, share: usize) -> bool
    ensures is { OnTrue result (FallsTo passes number share) }
    ensures not { OnFalse result (FallsTo passes number share → ⊥) }
{
    share == number || (number == 0 && passes <= share)
}

/// Expands the tables of a share, where it falls to the worker.
fn try_share<G: Gate>(
    shards: &Shards,
    graph: &KeyedGraph<'_>,
    ring: &[Table],
    earlier: u64,
    room: usize,
    count: usize,
    gate: &G,
    passes: usize,
    number: usize,
    share: usize,
    worker: &mut Worker,
)
    requires ours { IsWorkerOf shards.now worker.old }
    requires keyed { AreKeyed graph.now ring.now }
    requires there { share < count }
    requires few { count ≤ 64 }
    requires small { length ring.now < 2 ^ 32 }
    requires items { earlier < 2 ^ 32 }
    ensures ours { IsWorkerOf shards.now worker.new }
    ensures claimed { Claims
        (IsKeyIn graph.now (IsNearShare graph.now.moves.rows ring.now count passes number share))
        worker.old worker.new }
{
    if falls_to(passes, number, share) {
        let (from, tables) = share_of(ring, share, count);
        let first = earlier + from as u64;
        let share = share as u32;
        expand_share(shards, graph, tables, share, first, room, gate, worker);
    }
}

/// Expands the tables of all shares that fall to the worker.
fn work<G: Gate>(
    shards: &Shards,
    graph: &KeyedGraph<'_>,
    ring: &[Table],
    earlier: u64,
    room: usize,
    count: usize,
    gate: &G,
    passes: usize,
    number: usize,
    worker: &mut Worker,
)
    requires ours { IsWorkerOf shards.now worker.old }
    requires keyed { AreKeyed graph.now ring.now }
    requires few { count ≤ 64 }
    requires small { length ring.now < 2 ^ 32 }
    requires items { earlier < 2 ^ 32 }
    ensures ours { IsWorkerOf shards.now worker.new }
    ensures claimed { Claims
        (IsKeyIn graph.now (IsNearBefore graph.now.moves.rows ring.now count passes number count))
        worker.old worker.new }
{
    for share in 0..count {
        try_share(
            shards, graph, ring, earlier, room, count, gate, passes, number, share, worker,
        );
    }
}

/// Lends each worker to a thread, which expands the tables of its shares.
fn lend<R: Threads + Sync, G: Gate + Sync>(
    rt: &R,
    shards: &Shards,
    graph: &KeyedGraph<'_>,
    ring: &[Table],
    earlier: u64,
    room: usize,
    count: usize,
    gate: &G,
    workers: &mut [Worker],
)
    requires ours { All (IsWorkerOf shards.now) workers.old }
    requires some { 1 ≤ length workers.old }
    requires keyed { AreKeyed graph.now ring.now }
    requires few { count ≤ 64 }
    requires small { length ring.now < 2 ^ 32 }
    requires items { earlier < 2 ^ 32 }
    ensures ours { All (IsWorkerOf shards.now) workers.new }
    ensures claimed { (i : ℕ) (d : Worker) → i < length workers.old → Claims
        (IsKeyIn graph.now
        (IsNearBefore graph.now.moves.rows ring.now count (length workers.old) i count))
        (slice_index_or workers.old i d) (slice_index_or workers.new i d) }
{
    let passes = workers.len();
    thread::for_each_mut(
        rt,
        workers,
        passes,
        &|number, worker| {
            work(
                shards, graph, ring, earlier, room, count, gate, passes, number, worker,
            )
        },
    );
}

/// Expands all tables of a ring, share by share, by workers that have claimed nothing yet.
fn work_all<R: Threads + Sync, G: Gate + Sync>(
    rt: &R,
    shards: &Shards,
    graph: &KeyedGraph<'_>,
    ring: &[Table],
    earlier: u64,
    room: usize,
    count: usize,
    gate: &G,
    workers: &mut [Worker],
)
    requires ours { All (IsWorkerOf shards.now) workers.old }
    requires idle { All IsIdle workers.old }
    requires some { 1 ≤ length workers.old }
    requires keyed { AreKeyed graph.now ring.now }
    requires shares { 1 ≤ count }
    requires few { count ≤ 64 }
    requires small { length ring.now < 2 ^ 32 }
    requires items { earlier < 2 ^ 32 }
    ensures ours { All (IsWorkerOf shards.now) workers.new }
    ensures numbers { (n : ℕ) → In n (numbers workers.old) → In n (numbers workers.new) }
    ensures worked { AreWorked (IsKeyNear graph.now ring.now) workers.new }
    ensures some { 1 ≤ length workers.new }
{
    lend(rt, shards, graph, ring, earlier, room, count, gate, workers);
}

/// Claims the keys of the tables one step from a ring, by so many workers, and adds those that are
/// new to a list. No more passes are opened than there are tables. Where none could be opened,
/// nothing is claimed.
pub fn round<R: Threads + Sync, G: Gate + Sync>(
    rt: &R,
    alloc: Global,
    shards: &Shards,
    root: &mut Root,
    graph: &KeyedGraph<'_>,
    ring: &[Table],
    earlier: u64,
    room: usize,
    count: u32,
    gate: &G,
    found: &mut Vec<Ranked>,
) -> Result<Left, OutOfMemory>
    requires root_ours { IsRootOf shards.now root.old }
    requires none_open { root.old.knows.opened ≡ [] }
    requires keyed { AreKeyed graph.now ring.now }
    requires shares { 1 ≤ count }
    requires few { count ≤ 64 }
    requires small { length ring.now < 2 ^ 32 }
    requires items { earlier < 2 ^ 32 }
    ensures ours { IsRootOf shards.now root.new }
    ensures none_open { root.new.knows.opened ≡ [] }
    ensures round { IfOk result (IsRound (IsKeyNear graph.now ring.now)
        root.old.knows.gathered root.new.knows.gathered (keys_in found.old.items)
        (keys_in found.new.items)) }
    ensures near { (key : ℕ) → In key root.new.knows.gathered →
        In key root.old.knows.gathered
        ⊎ IsKeyNear graph.now ring.now key }
    ensures kept { OnErr result (root.new ≡ root.old) }
    ensures same { OnErr result (found.new.items ≡ found.old.items) }
{
    let passes = count.min(ring.len() as u32).max(1);
    let is_narrow = key_total(graph.keys()) < 1 << 32;
    let mut workers = open(alloc, shards, root, passes, ring.len(), is_narrow)?;
    let count = count as usize;
    let list = workers.as_mut_slice();
    work_all(rt, shards, graph, ring, earlier, room, count, gate, list);
    Ok(gather_all(shards, root, workers, found))
}
