//! The passes of a round are gathered.

ghost use Rattle.std.specs.Prelude.{◌++◌, ◌<◌, ◌≡◌, ◌≤◌, All, [], false, length, reverse, ℕ};
ghost use Rattle.mb_claims.specs.Claims.{IsRootOf};
ghost use Rattle.mb_claims.specs.Closed.{IsClosed};
ghost use Rattle.mb_keyed.specs.loops.Rounds.{IsListed};
ghost use Rattle.mb_keyed.specs.loops.Worked.{IsWorkerOf, keys_in, keys_won, notes_made, numbers};
ghost use Rattle.mb_tables.specs.Lists.{In};

use crate::ranked::Ranked;
use crate::worker::Worker;
use mb_claims::{Root, Shards};

/// What a round left undone.
#[derive(Clone, Copy)]
pub struct Left {
    /// Whether some key may be left that isn't stored.
    pub is_left: bool,
    /// Whether memory was wanting for a list.
    pub is_short: bool,
    /// The shards that were found full, one bit each.
    pub full: u64,
}

/// Adds keys to a list, and tells whether memory was wanting. A list that is empty becomes that of
/// the keys, so that one worker's keys aren't copied.
fn is_short_for(found: &mut Vec<Ranked>, keys: Vec<Ranked>) -> bool
    ensures { result ≡ false → found.new.items ≡ found.old.items ++ keys.items }
{
    if found.is_empty() {
        *found = keys;
        return false;
    }
    found.extend_from_slice(keys.as_slice()).is_err()
}

/// Gathers the passes of all workers, the last first, and adds the keys that they won to a list.
/// Where each open pass is one of theirs, none is open then.
pub fn gather_all(
    shards: &Shards,
    root: &mut Root,
    mut workers: Vec<Worker>,
    found: &mut Vec<Ranked>,
) -> Left
    requires root_ours { IsRootOf shards.now root.old }
    requires some { 1 ≤ length workers.items }
    requires ours { All (IsWorkerOf shards.now) workers.items }
    requires listed { All IsListed workers.items }
    requires opened { (n : ℕ) → In n root.old.knows.opened → In n (numbers workers.items) }
    ensures ours { IsRootOf shards.now root.new }
    ensures opened { root.new.knows.opened ≡ [] }
    ensures closed { IsClosed root.new.knows }
    ensures gathered { root.new.knows.gathered
        ≡ keys_won workers.items ++ root.old.knows.gathered }
    ensures notes { root.new.knows.notes ≡ notes_made workers.items ++ root.old.knows.notes }
    ensures left { result.is_left ≡ false →
        All (λ worker. worker.is_left ≡ false) workers.items }
    ensures found { result.is_short ≡ false →
        keys_in found.new.items ≡ keys_in found.old.items ++ reverse (keys_won workers.items) }
{
    let mut left = Left {
        is_left: false,
        is_short: false,
        full: 0,
    };
    while let Some(worker) = workers.pop() {
        let Worker {
            pass,
            cache,
            found: keys,
            is_left,
            is_short,
            full,
        } = worker;
        drop(cache);
        shards.gather(root, pass);
        let is_lost = is_short_for(found, keys);
        left = Left {
            is_left: left.is_left | is_left,
            is_short: left.is_short | is_short | is_lost,
            full: left.full | full,
        };
    }
    left
}
