//! Entries with the number of cells among them and the sum of their counts.

ghost use Rattle.std.specs.Prelude.{◌≡◌, ◌<◌, ◌≤◌, ◌+◌, ◌++◌, ◌∷◌, [], IfOk, MatchBool, length};
ghost use Rattle.mb_data.specs.CrossTable.{counted, counts};
ghost use Rattle.mb_data.specs.loops.Totals.{IsFilled};

use crate::entry::Entry;
use mb_tables::OutOfMemory;
use std::alloc::Global;

/// Entries, the number of cells among them, and the sum of their counts.
#[derive(Drop)]
pub(crate) struct Filled {
    pub(crate) entries: Vec<Entry>,
    pub(crate) cells: u32,
    pub(crate) total: u32,
    ghost is: { IsFilled entries.items cells total },
}

impl Filled {
    /// No entry. It takes no memory.
    pub(crate) fn new(alloc: Global) -> Filled
        ensures { result.entries.items ≡ [] }
    {
        Filled {
            entries: Vec::new(alloc),
            cells: 0,
            total: 0,
        }
    }

    /// Adds an entry, or answers false where it is the 65th cell.
    pub(crate) fn add(&mut self, entry: Entry) -> Result<bool, OutOfMemory>
        requires { self.old.total + counted entry ≤ 1000000 }
        ensures { IfOk result (λ more. MatchBool more
            (self.new.entries.items ≡ self.old.entries.items ++ entry ∷ [])
            (64 < length (counts (self.old.entries.items ++ entry ∷ [])))) }
    {
        self.entries.reserve(1)?;
        match entry {
            Entry::Count(count) => {
                if self.cells == 64 {
                    return Ok(false);
                }
                self.entries.push_reserved(entry);
                self.cells += 1;
                self.total += count;
            }
            Entry::StructuralZero => self.entries.push_reserved(entry),
        }
        Ok(true)
    }
}
