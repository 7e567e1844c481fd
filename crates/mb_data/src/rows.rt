//! The entries that records gave, found by the keys of their levels.

ghost use Rattle.std.specs.Map.{update};
ghost use Rattle.std.specs.Prelude.{◌≡◌, IfOk, IsSome, MatchBool, None, Some, ℕ, List, Option};
ghost use Rattle.std.specs.Str.{bytes_eq};
ghost use Rattle.mb_data.specs.Rows.{entry_at};

use crate::entry::Entry;
use mb_tables::OutOfMemory;
use std::alloc::Global;
use std::collections::HashMap;

/// The entries that records gave. Contracts see them by `entry_at`.
#[derive(Drop)]
pub(crate) struct Rows {
    entries: HashMap<Vec<u8>, Entry>,
}

impl Rows {
    /// No entry. It takes no memory.
    pub(crate) fn new(alloc: Global) -> Rows
        ensures { (key : List ℕ) → entry_at result key ≡ None }
    {
        Rows {
            entries: HashMap::new(alloc),
        }
    }

    /// The entry of the levels of this key, if a record gave one.
    pub(crate) fn get(&self, key: &[u8]) -> Option<Entry>
        ensures { result ≡ entry_at self.now key.now }
    {
        self.entries.get(key).copied()
    }

    /// Puts an entry in. Where there was one for these levels, it goes and the answer is false.
    pub(crate) fn put(&mut self, key: Vec<u8>, entry: Entry) -> Result<bool, OutOfMemory>
        ensures { IfOk result (λ new. MatchBool new
            ((entry_at self.old key.items ≡ None) × ((others : List ℕ) →
            entry_at self.new others
            ≡ update bytes_eq (entry_at self.old) key.items (Some entry) others))
            (IsSome (entry_at self.old key.items))) }
    {
        match self.entries.insert(key, entry)? {
            None => Ok(true),
            Some(_) => Ok(false),
        }
    }
}
