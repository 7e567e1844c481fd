//! A move: an integer vector over the cells.

ghost use Rattle.std.specs.Prelude.{◌≡◌, ◌<◌, ◌≤◌, All, IfNone, IfOk, IfSome, Some, length, position, slice_get};
ghost use Rattle.mb_tables.specs.Answers.{Gives};
ghost use Rattle.mb_tables.specs.Entries.{AreEntries, IsEntry};
ghost use Rattle.mb_tables.specs.Faults.{is_lowest};
ghost use Rattle.mb_tables.specs.loops.Parts.{AreApart, entries_of};

use crate::memory::OutOfMemory;
use crate::part::{Part, entry_at, push_highs, push_lows};
use std::alloc::Global;
use std::marker::Model;

/// The most cells of a table or a move.
pub const MOST_CELLS: u32 = 64;

const _: () = prove!(MOST_CELLS == 64);

/// A move, seen as its list of entries, one a cell: at most 64, none of them -2,147,483,648.
///
/// Kept are the entries that aren't 0, those below 0 first, each beside its cell: a step looks at
/// no other cell, and a long list of moves stays small.
#[derive(Drop)]
pub struct Move {
    cells: u32,
    lows: u32,
    parts: Vec<Part>,
}

impl Model for Move {
    ghost use Rattle.std.specs.Prelude.{List, ℤ};
    ghost use Rattle.mb_tables.specs.loops.Parts.{AreMoveParts, entries_of};

    ghost Value = { List ℤ };

    ghost view = { λ z. entries_of z.cells z.parts.items };

    ghost invariant = { λ z. AreMoveParts z.cells z.lows z.parts.items };
}

/// Why a list of numbers is no move.
#[derive(Clone, Copy, Debug, PartialEq, Eq)]
pub enum MoveFault {
    /// There are more than 64 entries.
    TooManyCells,
    /// The entry of this cell, the first such one, is -2,147,483,648. Cells count from 0.
    EntryTooLarge { cell: u32 },
    /// Out of memory.
    OutOfMemory,
}

impl From<OutOfMemory> for MoveFault {
    ghost use Rattle.std.specs.Prelude.{◌≡◌};
    ghost use Rattle.mb_tables.specs.declared.one_move.MoveFault.TheVariants.{OutOfMemory};

    ghost from_gives = { λ _ e. e ≡ OutOfMemory };

    fn from(_e: OutOfMemory) -> MoveFault {
        MoveFault::OutOfMemory
    }
}

/// The first cell whose entry is the one number without a negative.
fn first_lowest(entries: &[i32]) -> Option<usize>
    ensures first { result ≡ position is_lowest entries.now }
    ensures within { IfSome result (λ cell. cell < length entries.now) }
    ensures none { IfNone result (All IsEntry entries.now) }
{
    entries.iter().position(|entry| *entry == i32::MIN)
}

impl Move {
    ghost use Rattle.mb_tables.specs.Faults.{move_cause, move_of};

    /// The move with these entries, one a cell.
    ///
    /// Refused are, in this order, more than 64 entries and the first entry that is
    /// -2,147,483,648, whose negative is no `i32`.
    pub fn try_new(alloc: Global, entries: &[i32]) -> Result<Move, MoveFault>
        ensures made { IfOk result (λ z. z ≡ entries.now) }
        ensures sound { IfOk result (λ z. AreEntries entries.now) }
        ensures exact { Gives move_cause (λ z. z) result (move_of entries.now) }
    {
        if entries.len() > MOST_CELLS as usize {
            return Err(MoveFault::TooManyCells);
        }
        if let Some(cell) = first_lowest(entries) {
            return Err(MoveFault::EntryTooLarge { cell: cell as u32 });
        }
        Ok(Move::from_entries(alloc, entries)?)
    }

    /// The move with these entries, which are known to be those of one.
    pub fn from_entries(alloc: Global, entries: &[i32]) -> Result<Move, OutOfMemory>
        requires { AreEntries entries.now }
        ensures { IfOk result (λ z. z ≡ entries.now) }
    {
        let some = entries.iter().filter(|entry| **entry != 0).count();
        let mut parts = Vec::with_capacity(alloc, some)?;
        push_lows(&mut parts, entries)?;
        let lows = parts.len() as u32;
        push_highs(&mut parts, entries)?;
        Ok(Move {
            cells: entries.len() as u32,
            lows,
            parts,
        })
    }

    /// The number of cells, at most 64.
    pub fn len(&self) -> u32
        ensures cells { result ≡ length self.now }
        ensures sound { AreEntries self.now }
    {
        self.cells
    }

    /// The entry of a cell. Cells count from 0.
    pub fn entry(&self, cell: u32) -> i32
        requires { cell < length self.now }
        ensures { slice_get self.now cell ≡ Some result }
    {
        entry_at(self.parts.as_slice(), cell)
    }

    /// Writes all entries, cell by cell. It takes no memory.
    pub fn copy_to_slice(&self, entries: &mut [i32])
        requires { length entries.old ≡ length self.now }
        ensures { entries.new ≡ self.now }
    {
        for cell in 0..self.len() {
            entries[cell as usize] = self.entry(cell);
        }
    }

    /// The parts of the move, and how many of them have the entries below 0; these come first.
    pub(crate) fn parts(&self) -> (&[Part], usize)
        ensures entries { self.now ≡ entries_of (length self.now) result.0.now }
        ensures within { All (λ part. part.cell < length self.now) result.0.now }
        ensures apart { AreApart result.0.now }
        ensures split { result.1 ≤ length result.0.now }
    {
        (self.parts.as_slice(), self.lows as usize)
    }
}
