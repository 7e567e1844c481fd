//! The next ring, by keys.

ghost use Rattle.std.specs.Prelude.{
  ◌<◌,
  ◌^◌,
  ◌↔◌,
  ◌≡◌,
  ◌≤◌,
  ◌⊎◌,
  IfErr,
  IfOk,
  List,
  [],
  length,
  map,
  ℕ,
};
ghost use Rattle.mb_claims.specs.Claims.{IsRootOf};
ghost use Rattle.mb_claims.specs.Lists.{AreDistinctKeys};
ghost use Rattle.mb_keyed.specs.loops.Graph.{AreKeyed, IsKeyNear};
ghost use Rattle.mb_keyed.specs.loops.Keyed.{FindsKeyed, IsKeyFault, IsOfFiber, digits_in};
ghost use Rattle.mb_keyed.specs.loops.Worked.{keys_in};
ghost use Rattle.mb_matrix.specs.Ascending.{Ascends};
ghost use Rattle.mb_rings.specs.Claimed.{IsKeyOf};
ghost use Rattle.mb_rings.specs.Walk.{most_tables};
ghost use Rattle.mb_tables.specs.Lists.{In};
ghost use Rattle.mb_tables.specs.Step.{IsNear};

use crate::claimed_ring::claim_ring;
use crate::keyed_fiber::KeyedFiber;
use crate::keyed_graph::KeyedGraph;
use crate::ranked::Ranked;
use crate::ring_tables::read_tables;
use mb_claims::{Root, Shards};
use mb_outside::Gate;
use mb_rings::WalkFault;
use mb_tables::{OutOfMemory, Table};
use std::alloc::Global;
use std::thread::Threads;

/// The tables of a fiber with these keys, in ascending order, by so many workers, or fewer where
/// there are few. They are read in the order of their ranks, so the sort finds them sorted.
fn ring_of_keys<R: Threads + Sync>(
    rt: &R,
    alloc: Global,
    fiber: &KeyedFiber<'_>,
    found: Vec<Ranked>,
    workers: u32,
) -> Result<Vec<Table>, OutOfMemory>
    requires there { (key : ℕ) → In key (keys_in found.items) →
        IsKeyOf (digits_in fiber.now) (IsOfFiber fiber.now) key }
    requires once { AreDistinctKeys (keys_in found.items) }
    requires some { 1 ≤ workers }
    ensures keys { IfOk result (λ tables. (key : ℕ) →
        In key (keys_in found.items) ↔ IsKeyOf (digits_in fiber.now) (λ v. In v tables.items) key) }
    ensures fiber { IfOk result (λ tables. (v : List ℕ) → In v tables.items →
        IsOfFiber fiber.now v) }
    ensures ascends { IfOk result (λ tables. Ascends tables.items) }
    ensures count { IfOk result (λ tables. length tables.items ≡ length found.items) }
{
    let threads = (workers as usize).min(found.len() / 256 + 1);
    let mut order = found;
    order.sort_unstable_by_key(|found| found.rank);
    let mut tables = read_tables(rt, alloc, fiber, order.as_slice(), threads)?;
    tables.sort()?;
    Ok(tables)
}

/// The tables one step from a ring that are new, in ascending order: those whose keys weren't
/// gathered. All their keys are gathered then.
pub fn next_keyed_ring<R: Threads + Sync, G: Gate + Sync>(
    rt: &R,
    alloc: Global,
    shards: Shards,
    root: &mut Root,
    graph: &KeyedGraph<'_>,
    ring: &[Table],
    earlier: u64,
    room: usize,
    limit: u32,
    workers: u32,
    gate: &G,
) -> (Shards, Result<Vec<Table>, WalkFault>)
    requires root_ours { IsRootOf shards root.old }
    requires none_open { root.old.knows.opened ≡ [] }
    requires keyed { AreKeyed graph.now ring.now }
    requires fiber { (v : List ℕ) → IsNear graph.now.moves.rows ring.now v →
        IsOfFiber graph.now.fiber v }
    requires some { 1 ≤ workers }
    requires few { workers ≤ 64 }
    requires small_ring { length ring.now < 2 ^ 32 }
    requires items { earlier < 2 ^ 32 }
    requires small { limit ≤ most_tables }
    requires small_room { room ≤ limit }
    ensures ours { IsRootOf result.0 root.new }
    ensures none_open { root.new.knows.opened ≡ [] }
    ensures near { (key : ℕ) → In key root.new.knows.gathered →
        In key root.old.knows.gathered
        ⊎ IsKeyNear graph.now ring.now key }
    ensures found { IfOk result.1 (λ next. FindsKeyed (digits_in graph.now.fiber)
        (IsNear graph.now.moves.rows ring.now) root.old.knows.gathered root.new.knows.gathered
        next.items) }
    ensures room { IfOk result.1 (λ next. length next.items ≤ room) }
    ensures refused { IfErr result.1
        (IsKeyFault (IsKeyNear graph.now ring.now)
        root.old.knows.gathered room limit) }
{
    let _keys = graph.keys();
    let (shards, found) = claim_ring(
        rt, alloc, shards, root, graph, ring, earlier, room, limit, workers, gate,
    );
    match found {
        Err(fault) => (shards, Err(fault)),
        Ok(found) => match ring_of_keys(rt, alloc, graph.fiber(), found, workers) {
            Err(_) => (shards, Err(WalkFault::OutOfMemory)),
            Ok(next) => (shards, Ok(next)),
        },
    }
}
