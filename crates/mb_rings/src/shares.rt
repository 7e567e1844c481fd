//! The shares of a ring, one a worker.

ghost use Rattle.std.specs.Prelude.{◌<◌, ◌^◌, ◌≡◌, ◌≤◌, length};
ghost use Rattle.mb_rings.specs.Share.{share_of, share_start};

use mb_tables::Table;

/// The place where the share of a worker begins, where so many tables are cut among so many
/// workers.
pub fn share_start(worker: usize, tables: usize, workers: usize) -> usize
    requires there { worker ≤ workers }
    requires some { 1 ≤ workers }
    requires few { workers ≤ 64 }
    requires small { tables < 2 ^ 32 }
    ensures start { result ≡ share_start worker tables workers }
    ensures within { result ≤ tables }
{
    worker * tables / workers
}

/// The share of a worker.
pub fn share_of(ring: &[Table], worker: usize, workers: usize) -> (usize, &[Table])
    requires there { worker < workers }
    requires few { workers ≤ 64 }
    requires small { length ring.now < 2 ^ 32 }
    ensures start { result.0 ≡ share_start worker (length ring.now) workers }
    ensures within { result.0 ≤ length ring.now }
    ensures share { result.1.now ≡ share_of ring.now worker workers }
{
    let from = share_start(worker, ring.len(), workers);
    let to = share_start(worker + 1, ring.len(), workers);
    (from, &ring[from..to])
}
