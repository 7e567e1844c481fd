//! The keys one step from a ring are claimed, and full shards grow until all are stored.

ghost use Rattle.std.specs.Bool.{OnTrue};
ghost use Rattle.std.specs.Prelude.{
  ◌<◌,
  ◌^◌,
  ◌↔◌,
  ◌≡◌,
  ◌≤◌,
  ◌⊎◌,
  IfErr,
  IfNone,
  IfOk,
  IfSome,
  List,
  OnOk,
  [],
  length,
  slice_index,
  ℕ,
};
ghost use Rattle.mb_claims.specs.Claims.{IsRootOf};
ghost use Rattle.mb_claims.specs.Lists.{AreDistinctKeys};
ghost use Rattle.mb_claims.specs.Limits.{most_words};
ghost use Rattle.mb_keyed.specs.loops.Graph.{AreKeyed, IsKeyNear};
ghost use Rattle.mb_keyed.specs.loops.Keyed.{AreFound, IsKeyFault};
ghost use Rattle.mb_keyed.specs.loops.Worked.{keys_in};
ghost use Rattle.mb_rings.specs.Walk.{most_tables};
ghost use Rattle.mb_tables.specs.Lists.{In};
ghost use Rattle.mb_tables.specs.Step.{IsNear};

use crate::keyed_graph::KeyedGraph;
use crate::ranked::Ranked;
use crate::rounds::round;
use crate::shard_words::words_for;
use mb_claims::{MOST_WORDS, Root, Shards};
use mb_outside::Gate;
use mb_rings::WalkFault;
use mb_tables::{OutOfMemory, Table};
use std::alloc::Global;
use std::thread::Threads;

/// More rounds than the words of 64 shards can be doubled.
const MOST_ROUNDS: u32 = 2048;

/// One round over a ring. The answer is `None` where all keys one step from the ring are stored,
/// and else the shards that were found full, one bit each.
fn try_ring<R: Threads + Sync, G: Gate + Sync>(
    rt: &R,
    alloc: Global,
    shards: &Shards,
    root: &mut Root,
    graph: &KeyedGraph<'_>,
    ring: &[Table],
    earlier: u64,
    room: usize,
    limit: u32,
    workers: u32,
    gate: &G,
    found: &mut Vec<Ranked>,
) -> Result<Option<u64>, WalkFault>
    requires root_ours { IsRootOf shards.now root.old }
    requires none_open { root.old.knows.opened ≡ [] }
    requires keyed { AreKeyed graph.now ring.now }
    requires some { 1 ≤ workers }
    requires few { workers ≤ 64 }
    requires small_ring { length ring.now < 2 ^ 32 }
    requires items { earlier < 2 ^ 32 }
    requires small { limit ≤ most_tables }
    ensures ours { IsRootOf shards.now root.new }
    ensures none_open { root.new.knows.opened ≡ [] }
    ensures near { (key : ℕ) → In key root.new.knows.gathered →
        In key root.old.knows.gathered
        ⊎ IsKeyNear graph.now ring.now key }
    ensures found { OnOk result ((known : List ℕ) →
        AreFound (IsKeyNear graph.now ring.now) known
        root.old.knows.gathered (keys_in found.old.items) →
        AreFound (IsKeyNear graph.now ring.now) known
        root.new.knows.gathered (keys_in found.new.items)) }
    ensures once { OnOk result (AreDistinctKeys root.new.knows.gathered) }
    ensures told { IfOk result (λ again. IfNone again ((key : ℕ) →
        IsKeyNear graph.now ring.now key →
        In key root.new.knows.gathered)) }
    ensures room { OnOk result (length found.new.items ≤ room) }
    ensures refused { IfErr result (λ fault. (known : List ℕ) →
        AreFound (IsKeyNear graph.now ring.now) known
        root.old.knows.gathered (keys_in found.old.items) →
        IsKeyFault (IsKeyNear graph.now ring.now) known room limit fault) }
{
    let left = round(
        rt, alloc, shards, root, graph, ring, earlier, room, workers, gate, found,
    )?;
    if left.is_short {
        return Err(WalkFault::OutOfMemory);
    }
    if found.len() > room {
        return Err(WalkFault::TooLarge { seen: limit + 1 });
    }
    Ok(if left.is_left { Some(left.full) } else { None })
}

/// Whether a shard is to grow: it is one of those found full. None of them has more words than a
/// shard that may grow, since then it would hold more keys than any limit.
fn is_to_grow(shards: &Shards, full: u64, shard: u32) -> bool
    ensures { OnTrue result ((shard < length shards.now.sizes)
        × (slice_index shards.now.sizes shard ≤ most_words)) }
{
    shard < shards.len() && (full >> shard.min(63)) & 1 == 1 && shards.words(shard) <= MOST_WORDS
}

/// Each of these shards grows, as long as it may.
fn grow_full(
    alloc: Global,
    shards: Shards,
    root: &mut Root,
    full: u64,
) -> (Shards, Result<(), OutOfMemory>)
    requires ours { IsRootOf shards root.old }
    requires none_open { root.old.knows.opened ≡ [] }
    ensures ours { IsRootOf result.0 root.new }
    ensures none_open { root.new.knows.opened ≡ [] }
    ensures keys { (key : ℕ) →
        In key root.new.knows.gathered ↔ In key root.old.knows.gathered }
{
    let mut shards = shards;
    for shard in 0..64u32 {
        if is_to_grow(&shards, full, shard) {
            match shards.grow(alloc, root, shard) {
                Ok(grown) => shards = grown,
                Err((same, e)) => return (same, Err(e)),
            }
        }
    }
    (shards, Ok(()))
}

/// The fewest words of a shard.
fn fewest_words(shards: &Shards) -> u32 {
    let count = shards.len();
    let mut fewest = shards.words(0);
    for shard in 1..count {
        fewest = fewest.min(shards.words(shard));
    }
    fewest
}

/// How many words each shard is to have before a ring is expanded, where so many keys are stored;
/// none where they are enough. There should be five for every four keys. All shards grow at once,
/// since each time all keys are claimed anew, and the words take their memory three times while
/// they are made, the most that a walk takes beside its tables. A walk of up to a million tables
/// should need none but the first.
fn wanted_words(shards: &Shards, stored: u64) -> Option<u32>
    ensures some { IfSome result (λ words. 1 ≤ words) }
    ensures most { IfSome result (λ words. words ≤ most_words) }
{
    let share = stored / u64::from(shards.len());
    let fewest = fewest_words(shards);
    let words = words_for(share.saturating_mul(5) / 2);
    if u64::from(fewest) * 4 < share.saturating_mul(5) && fewest < words {
        Some(words)
    } else {
        None
    }
}

/// All shards grow where so many keys are stored that words are wanting.
fn make_room(
    alloc: Global,
    shards: Shards,
    root: &mut Root,
    stored: u64,
) -> (Shards, Result<(), OutOfMemory>)
    requires ours { IsRootOf shards root.old }
    requires none_open { root.old.knows.opened ≡ [] }
    ensures ours { IsRootOf result.0 root.new }
    ensures none_open { root.new.knows.opened ≡ [] }
    ensures keys { (key : ℕ) →
        In key root.new.knows.gathered ↔ In key root.old.knows.gathered }
{
    match wanted_words(&shards, stored) {
        None => (shards, Ok(())),
        Some(words) => match shards.grow_to(alloc, root, words) {
            Ok(grown) => (grown, Ok(())),
            Err((same, e)) => (same, Err(e)),
        },
    }
}

/// Claims the keys one step from a ring: the answer lists those that are new. The shards come back,
/// and those of them that became full have grown.
pub fn claim_ring<R: Threads + Sync, G: Gate + Sync>(
    rt: &R,
    alloc: Global,
    shards: Shards,
    root: &mut Root,
    graph: &KeyedGraph<'_>,
    ring: &[Table],
    earlier: u64,
    room: usize,
    limit: u32,
    workers: u32,
    gate: &G,
) -> (Shards, Result<Vec<Ranked>, WalkFault>)
    requires root_ours { IsRootOf shards root.old }
    requires none_open { root.old.knows.opened ≡ [] }
    requires keyed { AreKeyed graph.now ring.now }
    requires some { 1 ≤ workers }
    requires few { workers ≤ 64 }
    requires small_ring { length ring.now < 2 ^ 32 }
    requires items { earlier < 2 ^ 32 }
    requires small { limit ≤ most_tables }
    ensures ours { IsRootOf result.0 root.new }
    ensures none_open { root.new.knows.opened ≡ [] }
    ensures near { (key : ℕ) → In key root.new.knows.gathered →
        In key root.old.knows.gathered
        ⊎ IsKeyNear graph.now ring.now key }
    ensures found { IfOk result.1 (λ found.
        AreFound (IsKeyNear graph.now ring.now)
        root.old.knows.gathered root.new.knows.gathered (keys_in found.items)) }
    ensures once { OnOk result.1 (AreDistinctKeys root.new.knows.gathered) }
    ensures told { OnOk result.1 ((key : ℕ) →
        IsKeyNear graph.now ring.now key →
        In key root.new.knows.gathered) }
    ensures room { IfOk result.1 (λ found. length found.items ≤ room) }
    ensures refused { IfErr result.1
        (IsKeyFault (IsKeyNear graph.now ring.now)
        root.old.knows.gathered room limit) }
{
    let stored = earlier + ring.len() as u64;
    let (mut shards, outcome) = make_room(alloc, shards, root, stored);
    if outcome.is_err() {
        return (shards, Err(WalkFault::OutOfMemory));
    }
    let mut found = Vec::new(alloc);
    for _ in 0..MOST_ROUNDS {
        match try_ring(
            rt, alloc, &shards, root, graph, ring, earlier, room, limit, workers, gate, &mut found,
        ) {
            Err(fault) => return (shards, Err(fault)),
            Ok(None) => return (shards, Ok(found)),
            Ok(Some(full)) => {
                let (grown, outcome) = grow_full(alloc, shards, root, full);
                shards = grown;
                if outcome.is_err() {
                    return (shards, Err(WalkFault::OutOfMemory));
                }
            }
        }
    }
    (shards, Err(WalkFault::OutOfMemory))
}
