//! Workers, each with a pass of its own.

ghost use Rattle.std.specs.Prelude.{◌≡◌, ◌≤◌, All, IfOk, OnErr, [], false, length, ℕ};
ghost use Rattle.mb_claims.specs.ClaimStep.{begins};
ghost use Rattle.mb_claims.specs.Claims.{IsRootOf};
ghost use Rattle.mb_keyed.specs.loops.Worked.{AreCached, IsIdle, IsWorkerOf, numbers};
ghost use Rattle.mb_tables.specs.Lists.{In};

use crate::cache::Cache;
use crate::worker::Worker;
use mb_claims::{Pass, Root, Shards};
use mb_tables::OutOfMemory;
use std::alloc::Global;

/// One of so many workers, with this pass, that has claimed nothing, for a ring of so many tables
/// whose steps lead to keys below 2^32, where these are narrow.
fn worker_of(alloc: Global, pass: Pass, tables: usize, count: u32, is_narrow: bool) -> Worker
    ensures pass { result.pass ≡ pass }
    ensures cached { AreCached result.pass.knows.notes result.cache }
    ensures found { result.found.items ≡ [] }
{
    Worker {
        pass,
        cache: Cache::new(alloc, tables, count as usize, is_narrow),
        found: Vec::new(alloc),
        is_left: false,
        is_short: false,
        full: 0,
    }
}

/// So many workers for a ring of so many tables, or fewer where passes are refused, but one at
/// least. Where the keys are narrow, below 2^32, their caches are half as large.
pub fn open(
    alloc: Global,
    shards: &Shards,
    root: &mut Root,
    count: u32,
    tables: usize,
    is_narrow: bool,
) -> Result<Vec<Worker>, OutOfMemory>
    requires root_ours { IsRootOf shards.now root.old }
    requires none_open { root.old.knows.opened ≡ [] }
    ensures root_ours { IsRootOf shards.now root.new }
    ensures gathered { root.new.knows.gathered ≡ root.old.knows.gathered }
    ensures kept { OnErr result (root.new ≡ root.old) }
    ensures opened { IfOk result (λ workers. (n : ℕ) → In n root.new.knows.opened →
        In n (numbers workers.items)) }
    ensures ours { IfOk result (λ workers. All (IsWorkerOf shards.now) workers.items) }
    ensures idle { IfOk result (λ workers. All IsIdle workers.items) }
    ensures some { IfOk result (λ workers. 1 ≤ length workers.items) }
{
    let mut workers = Vec::with_capacity(alloc, count as usize)?;
    for _ in 0..count {
        if let Ok(pass) = shards.split(root) {
            workers.push_reserved(worker_of(alloc, pass, tables, count, is_narrow));
        }
    }
    if workers.is_empty() {
        return Err(OutOfMemory);
    }
    Ok(workers)
}
