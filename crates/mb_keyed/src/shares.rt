//! What a worker does with its share of a ring.

ghost use Rattle.std.specs.Prelude.{◌+◌, ◌<◌, ◌^◌, List, length, ℕ};
ghost use Rattle.mb_keyed.specs.loops.Graph.{AreKeyed, IsKeyIn, IsKeyNear};
ghost use Rattle.mb_keyed.specs.loops.Keyed.{digits_in};
ghost use Rattle.mb_keyed.specs.loops.Worked.{Claims, HasKeyedSteps, IsWorkerOf};
ghost use Rattle.mb_tables.specs.Lists.{In};
ghost use Rattle.mb_tables.specs.Step.{IsNear, OneApart};

use crate::keyed_graph::KeyedGraph;
use crate::near_keys::list_near;
use crate::ranked::Ranked;
use crate::worker::{Worker, claim_keys};
use mb_claims::Shards;
use mb_outside::Gate;
use mb_tables::Table;

/// Claims the keys of the tables one step from a table, unless the worker is to stop: where it is
/// short of memory, or has found more than there is room for.
fn expand_table<G: Gate>(
    shards: &Shards,
    graph: &KeyedGraph<'_>,
    table: &Table,
    number: u32,
    item: u64,
    room: usize,
    gate: &G,
    near: &mut Vec<Ranked>,
    unknown: &mut Vec<Ranked>,
    worker: &mut Worker,
)
    requires ours { IsWorkerOf shards.now worker.old }
    requires keyed { HasKeyedSteps (digits_in graph.now.fiber) graph.now.moves.width
        graph.now.moves.rows table.now }
    ensures ours { IsWorkerOf shards.now worker.new }
    ensures claimed { Claims (IsKeyIn graph.now (OneApart graph.now.moves.rows table.now))
        worker.old worker.new }
{
    if worker.is_short || worker.found.len() > room {
        worker.is_left = true;
        return;
    }
    gate.pass(number, item);
    let keys = graph.keys();
    let key = keys.key(table);
    let rank = keys.rank(table);
    if list_near(graph, table.as_slice(), key, rank, near).is_err() {
        worker.is_short = true;
        worker.is_left = true;
        return;
    }
    claim_keys(shards, near.as_slice(), unknown, worker);
}

/// Expands the tables of the share with this number: the worker passes the gate with it before
/// each, and claims the keys of the tables one step from it.
pub fn expand_share<G: Gate>(
    shards: &Shards,
    graph: &KeyedGraph<'_>,
    share: &[Table],
    number: u32,
    first: u64,
    room: usize,
    gate: &G,
    worker: &mut Worker,
)
    requires ours { IsWorkerOf shards.now worker.old }
    requires keyed { AreKeyed graph.now share.now }
    requires items { first + length share.now < 2 ^ 64 }
    ensures ours { IsWorkerOf shards.now worker.new }
    ensures claimed { Claims (IsKeyNear graph.now share.now)
        worker.old worker.new }
{
    let alloc = *worker.found.allocator();
    let mut near = Vec::new(alloc);
    let mut unknown = Vec::new(alloc);
    for (place, table) in share.iter().enumerate() {
        let item = first + place as u64;
        expand_table(
            shards,
            graph,
            table,
            number,
            item,
            room,
            gate,
            &mut near,
            &mut unknown,
            worker,
        );
    }
}
