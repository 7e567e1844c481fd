//! A worker of one ring: the pass by which it claims keys, and what it found.

ghost use Rattle.std.specs.Bool.{OnTrue};
ghost use Rattle.std.specs.Prelude.{◌++◌, ◌∷◌, ◌≡◌, ◌≢◌, OnOk, [], false, ℕ};
ghost use Rattle.mb_claims.specs.Claims.{IsPassOf};
ghost use Rattle.mb_claims.specs.Notes.{IsNoted};
ghost use Rattle.mb_keyed.specs.loops.Worked.{AreUnknown, Claims, IsWorkerOf, keys_in};
ghost use Rattle.mb_tables.specs.Lists.{In};

use crate::cache::Cache;
use crate::ranked::Ranked;
use mb_claims::{Claim, Pass, Shards};
use mb_tables::OutOfMemory;

/// A worker of one ring. One element holds all that a thread changes.
#[derive(Drop)]
pub struct Worker {
    /// The view by which it claims.
    pub pass: Pass,
    /// Keys that its pass knows to be stored.
    pub cache: Cache,
    /// The keys that its pass won, in the order in which it won them.
    pub found: Vec<Ranked>,
    /// Whether it may have left a key that isn't stored.
    pub is_left: bool,
    /// Whether memory was wanting for its list.
    pub is_short: bool,
    /// The shards that it found full, one bit each.
    pub full: u64,
}

/// The bit of a shard. There are at most 64.
fn shard_bit(shard: u32) -> u64 {
    if shard < 64 { 1 << shard } else { 0 }
}

/// Adds a key to the worker's list.
fn keep(worker: &mut Worker, key: u64, rank: u64)
    ensures pass { worker.new.pass ≡ worker.old.pass }
    ensures cache { worker.new.cache ≡ worker.old.cache }
    ensures left { worker.new.is_left ≡ worker.old.is_left }
    ensures short { worker.new.is_short ≡ false → worker.old.is_short ≡ false }
    ensures found { worker.new.is_short ≡ false →
        keys_in worker.new.found.items ≡ keys_in worker.old.found.items ++ key ∷ [] }
{
    if worker.found.push(Ranked { key, rank }).is_err() {
        worker.is_short = true;
    }
}

/// Claims the key of a table of this rank among the shared words, and tells whether the worker
/// knows it to be stored then.
#[inline(never)]
fn claim_shared(shards: &Shards, worker: &mut Worker, key: u64, rank: u64) -> bool
    requires ours { IsPassOf shards.now worker.old.pass }
    requires key { key ≢ 0 }
    ensures ours { IsPassOf shards.now worker.new.pass }
    ensures cache { worker.new.cache ≡ worker.old.cache }
    ensures claimed { Claims (λ k. k ≡ key) worker.old worker.new }
    ensures known { OnTrue result (IsNoted worker.new.pass.knows.notes key) }
{
    match shards.claim(&mut worker.pass, key) {
        Claim::New => {
            keep(worker, key, rank);
            true
        }
        Claim::Seen => true,
        Claim::Full { shard } => {
            worker.is_left = true;
            worker.full |= shard_bit(shard);
            false
        }
    }
}

/// Claims the key of a table of this rank, and remembers it.
fn claim_key(shards: &Shards, worker: &mut Worker, key: u64, rank: u64)
    requires ours { IsWorkerOf shards.now worker.old }
    requires key { key ≢ 0 }
    ensures ours { IsWorkerOf shards.now worker.new }
    ensures claimed { Claims (λ k. k ≡ key) worker.old worker.new }
{
    if claim_shared(shards, worker, key, rank) {
        worker.cache.remember(rank, key);
    }
}

/// Claims these keys, one after the other.
fn claim_all(shards: &Shards, keys: &[Ranked], worker: &mut Worker)
    requires ours { IsWorkerOf shards.now worker.old }
    requires some { (key : ℕ) → In key (keys_in keys.now) → key ≢ 0 }
    ensures ours { IsWorkerOf shards.now worker.new }
    ensures claimed { Claims (λ key. In key (keys_in keys.now)) worker.old worker.new }
{
    for one in keys {
        claim_key(shards, worker, one.key, one.rank);
    }
}

/// Lists those of some keys that the worker's cache doesn't have, in place of what the list had.
fn list_unknown(
    near: &[Ranked],
    worker: &Worker,
    unknown: &mut Vec<Ranked>,
) -> Result<(), OutOfMemory>
    ensures { OnOk result
        (AreUnknown worker.now.cache (keys_in near.now) (keys_in unknown.new.items)) }
{
    unknown.clear();
    for one in near {
        if !worker.cache.has(one.rank, one.key) {
            unknown.push(*one)?;
        }
    }
    Ok(())
}

/// Has the words read with which the claims of these keys begin.
fn prefetch_all(shards: &Shards, keys: &[Ranked]) {
    for one in keys {
        shards.prefetch(one.key);
    }
}

/// Claims some keys. Most are met many times: one that stands in the worker's cache needs no look
/// at the shared words. The others are listed, so that the waits for their words overlap; where
/// memory is wanting for that, all are left.
pub fn claim_keys(shards: &Shards, near: &[Ranked], unknown: &mut Vec<Ranked>, worker: &mut Worker)
    requires ours { IsWorkerOf shards.now worker.old }
    requires some { (key : ℕ) → In key (keys_in near.now) → key ≢ 0 }
    ensures ours { IsWorkerOf shards.now worker.new }
    ensures claimed { Claims (λ key. In key (keys_in near.now)) worker.old worker.new }
{
    if list_unknown(near, worker, unknown).is_err() {
        worker.is_short = true;
        worker.is_left = true;
        return;
    }
    let keys = unknown.as_slice();
    prefetch_all(shards, keys);
    claim_all(shards, keys, worker);
}
