//! The walk by keys: workers claim the keys of tables among shared words.
//!
//! Before you change this: what a worker wins is known to be new only when its pass is gathered,
//! and what it has seen, to be stored. So all passes of a round are gathered before its keys are
//! read, and before any answer, also a refusal.

ghost use Rattle.std.specs.Bool.{OnTrue};
ghost use Rattle.std.specs.Prelude.{
  ◌++◌,
  ◌<◌,
  ◌^◌,
  ◌∷◌,
  ◌≡◌,
  ◌≢◌,
  ◌≤◌,
  All,
  IfErr,
  IfOk,
  None,
  OnErr,
  OnOk,
  [],
  length,
  ℕ,
};
ghost use Rattle.mb_claims.specs.Claims.{IsRootOf};
ghost use Rattle.mb_keyed.specs.loops.Graph.{IsKeyIn};
ghost use Rattle.mb_keyed.specs.loops.Keyed.{digits_in, fiber_at};
ghost use Rattle.mb_matrix.specs.Key.{digits_of, key_of};
ghost use Rattle.mb_matrix.specs.Matrix.{IsMove, margins_of};
ghost use Rattle.mb_rings.specs.Claimed.{AreKeysOf, IsKeyOf};
ghost use Rattle.mb_rings.specs.Ring.{reached, tables_of};
ghost use Rattle.mb_rings.specs.Walk.{most_tables, walk_cause, walk_of};
ghost use Rattle.mb_rings.specs.loops.RingList.{listed};
ghost use Rattle.mb_tables.specs.Answers.{Gives};
ghost use Rattle.mb_tables.specs.Lists.{In};

use crate::keyed_graph::KeyedGraph;
use crate::keyed_ring::next_keyed_ring;
use mb_claims::{Root, Shards};
use mb_matrix::{Keys, Matrix};
use mb_outside::Gate;
use mb_rings::{Rings, WalkFault};
use mb_tables::{Moves, OutOfMemory, Table};
use std::alloc::Global;
use std::thread::Threads;

/// Ring 0, which has the start alone.
fn first_ring(alloc: Global, start: &Table) -> Result<Vec<Table>, OutOfMemory>
    ensures { IfOk result (λ ring. ring.items ≡ start.now ∷ []) }
{
    let mut ring = Vec::new(alloc);
    ring.push(start.try_copy()?)?;
    Ok(ring)
}

/// Claims a first key. It is new, since no key is stored.
fn claim_first(shards: &Shards, root: &mut Root, key: u64) -> Result<(), OutOfMemory>
    requires ours { IsRootOf shards.now root.old }
    requires none_open { root.old.knows.opened ≡ [] }
    requires empty { root.old.knows.gathered ≡ [] }
    requires key { key ≢ 0 }
    ensures ours { IsRootOf shards.now root.new }
    ensures none_open { root.new.knows.opened ≡ [] }
    ensures first { OnOk result (root.new.knows.gathered ≡ key ∷ []) }
    ensures kept { OnErr result (root.new ≡ root.old) }
{
    let mut pass = shards.split(root)?;
    let _some = shards.words((key % u64::from(shards.len())) as u32);
    shards.claim(&mut pass, key);
    shards.gather(root, pass);
    Ok(())
}

/// Adds a ring, and tells whether there was memory for it.
fn add_ring(rings: &mut Vec<Vec<Table>>, ring: Vec<Table>) -> bool
    ensures { OnTrue result
        (listed rings.new.items ≡ listed rings.old.items ++ ring.items ∷ []) }
{
    rings.push(ring).is_ok()
}

/// The rings of a start, of which ring 0 is given and its key is gathered.
fn walk_rings<R: Threads + Sync, G: Gate + Sync>(
    rt: &R,
    alloc: Global,
    shards: Shards,
    root: &mut Root,
    graph: &KeyedGraph<'_>,
    start: &Table,
    ring: Vec<Table>,
    limit: u32,
    workers: u32,
    gate: &G,
) -> (Shards, Result<Rings, WalkFault>)
    requires cells { length start.now ≡ length graph.now.fiber.matrix.columns }
    requires width { graph.now.moves.width ≡ length graph.now.fiber.matrix.columns }
    requires moves { All (IsMove graph.now.fiber.matrix) graph.now.moves.rows }
    requires fits { All (λ margin. margin < 2 ^ 32) (margins_of graph.now.fiber.matrix start.now) }
    requires some { 1 ≤ limit }
    requires small { limit ≤ most_tables }
    requires some_worker { 1 ≤ workers }
    requires few_workers { workers ≤ 64 }
    requires fiber { graph.now.fiber ≡ fiber_at graph.now.fiber.matrix start.now }
    requires ring { ring.items ≡ start.now ∷ [] }
    requires root_ours { IsRootOf shards root.old }
    requires none_open { root.old.knows.opened ≡ [] }
    requires first { root.old.knows.gathered ≡ key_of (digits_in graph.now.fiber) start.now ∷ [] }
    ensures rings { Gives walk_cause (λ walked. walked.rings) result.1
        (walk_of limit graph.now.fiber.matrix graph.now.moves.rows start.now) }
    ensures ours { IsRootOf result.0 root.new }
    ensures none_open { root.new.knows.opened ≡ [] }
    ensures keys { IfOk result.1 (λ walked.
        AreKeysOf (digits_in graph.now.fiber) (tables_of walked.rings) root.new.knows.gathered) }
    ensures no_claims { IfOk result.1 (λ walked. walked.claims ≡ None) }
    ensures reached { OnErr result.1 ((key : ℕ) → In key root.new.knows.gathered →
        IsKeyIn graph.now
        (λ v. In v (reached graph.now.fiber.matrix graph.now.moves.rows start.now)) key) }
{
    let _keys = graph.keys();
    let mut shards = shards;
    let mut ring = ring;
    let mut rings = Vec::new(alloc);
    let mut earlier = 0;
    while !ring.is_empty() {
        let seen = earlier + ring.len();
        let room = limit as usize - seen;
        let (same, next) = next_keyed_ring(
            rt,
            alloc,
            shards,
            root,
            graph,
            ring.as_slice(),
            earlier as u64,
            room,
            limit,
            workers,
            gate,
        );
        shards = same;
        match next {
            Err(fault) => return (shards, Err(fault)),
            Ok(next) => {
                if !add_ring(&mut rings, ring) {
                    return (shards, Err(WalkFault::OutOfMemory));
                }
                earlier = seen;
                ring = next;
            }
        }
    }
    (shards, Ok(Rings::from_lists(rings, earlier as u32)))
}

/// The rings of a start by moves of a matrix, as `walk` gives them, by workers who claim the keys
/// of tables among shared words.
///
/// The keys are those of the matrix and the margins of the start. The root is that of the shards,
/// no pass is open, and no key is stored. Each ring is cut into shares of neighbouring tables, one
/// a worker: worker w of k has those from place `w * r / k` up to `(w + 1) * r / k`, of r. Before a
/// table is expanded the gate is passed, with the number of its share, from 0, and the number of
/// tables that stand before this one in all rings.
///
/// At the end no pass is open, and the root belongs to the shards that come back. The gathered keys
/// are those of the tables of the rings, each once; the rings have no claims of their own, since
/// the caller has the root. After a refusal each gathered key is that of a reached table.
pub fn walk_on<R: Threads + Sync, G: Gate + Sync>(
    rt: &R,
    alloc: Global,
    matrix: &Matrix,
    moves: &Moves,
    start: &Table,
    keys: &Keys,
    shards: Shards,
    root: &mut Root,
    limit: u32,
    workers: u32,
    gate: &G,
) -> Result<(Rings, Shards), (Shards, WalkFault)>
    requires cells { length start.now ≡ length matrix.now.columns }
    requires width { moves.now.width ≡ length matrix.now.columns }
    requires moves { All (IsMove matrix.now) moves.now.rows }
    requires margins { All (λ margin. margin < 2 ^ 32) (margins_of matrix.now start.now) }
    requires some { 1 ≤ limit }
    requires small { limit ≤ most_tables }
    requires some_worker { 1 ≤ workers }
    requires few_workers { workers ≤ 64 }
    requires keys { keys.now ≡ digits_of matrix.now (margins_of matrix.now start.now) }
    requires ours { IsRootOf shards root.old }
    requires none_open { root.old.knows.opened ≡ [] }
    requires empty { root.old.knows.gathered ≡ [] }
    ensures rings { Gives (λ refused. walk_cause refused.1) (λ made. made.0.rings) result
        (walk_of limit matrix.now moves.now.rows start.now) }
    ensures ours { IfOk result (λ made. IsRootOf made.1 root.new) }
    ensures back { IfErr result (λ refused. IsRootOf refused.0 root.new) }
    ensures none_open { root.new.knows.opened ≡ [] }
    ensures keys { IfOk result (λ made.
        AreKeysOf keys.now (tables_of made.0.rings) root.new.knows.gathered) }
    ensures no_claims { IfOk result (λ made. made.0.claims ≡ None) }
    ensures reached { OnErr result ((key : ℕ) → In key root.new.knows.gathered →
        IsKeyOf keys.now (λ v. In v (reached matrix.now moves.now.rows start.now)) key) }
{
    let _cells = matrix.cols();
    let graph = match KeyedGraph::of(alloc, matrix, moves, start, keys) {
        Err(_) => return Err((shards, WalkFault::OutOfMemory)),
        Ok(graph) => graph,
    };
    let ring = match first_ring(alloc, start) {
        Err(_) => return Err((shards, WalkFault::OutOfMemory)),
        Ok(ring) => ring,
    };
    if claim_first(&shards, root, keys.key(start)).is_err() {
        return Err((shards, WalkFault::OutOfMemory));
    }
    let (shards, rings) = walk_rings(
        rt, alloc, shards, root, &graph, start, ring, limit, workers, gate,
    );
    match rings {
        Err(fault) => Err((shards, fault)),
        Ok(rings) => Ok((rings, shards)),
    }
}
