//! The words of shards that are at their end.

ghost use Rattle.std.specs.Mem.Slots.{IsFull, slots_items, slots_len};
ghost use Rattle.std.specs.Prelude.{◌<◌, ◌≡◌, length, slice_index};

use atomic_table::Closed;
use std::alloc::Global;
use std::marker::Model;

/// The words that some shards had at their end, which no thread shares any more, seen as their
/// list.
pub struct OldWords {
    closed: Closed<u8, Global>,
}

impl Model for OldWords {
    ghost use Rattle.std.specs.Mem.Slots.{IsFull, slots_items, slots_len};
    ghost use Rattle.std.specs.Prelude.{List, ℕ, ◌≡◌};

    ghost Value = { List ℕ };

    ghost view = { λ o. slots_items o.closed.words };

    ghost invariant = { λ o. IsFull o.closed.words × (slots_len o.closed.slots ≡ 0) };
}

impl OldWords {
    /// The words of a table that has no slots.
    pub fn of(closed: Closed<u8, Global>) -> OldWords
        requires full { IsFull closed.words }
        requires no_slots { slots_len closed.slots ≡ 0 }
        ensures { result ≡ slots_items closed.words }
    {
        OldWords { closed }
    }

    /// The number of words.
    pub fn len(&self) -> usize
        ensures { result ≡ length self.now }
    {
        self.closed.words.len()
    }

    /// The word at a place. Places count from 0.
    pub fn word(&self, place: usize) -> u64
        requires { place < length self.now }
        ensures { result ≡ slice_index self.now place }
    {
        self.closed.word(place)
    }

    /// Gives the memory back.
    pub fn free(self) {
        let OldWords { closed } = self;
        closed.free();
    }
}
