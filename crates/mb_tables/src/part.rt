//! The entries of a move that aren't 0, each beside its cell.

ghost use Rattle.std.specs.Prelude.{◌≡◌, ◌<◌, ◌≤◌, ◌++◌, All, OnOk, length, pos, slice_index_or, ℕ};
ghost use Rattle.mb_tables.specs.loops.Parts.{AreApart, entries_of, is_high, is_low, picked};

use crate::memory::OutOfMemory;

/// An entry, and the cell where it stands. Cells count from 0.
#[derive(Clone, Copy)]
pub struct Part {
    /// The cell.
    pub cell: u32,
    /// Its entry.
    pub entry: i32,
}

/// Adds the parts of the entries below 0.
pub fn push_lows(parts: &mut Vec<Part>, entries: &[i32]) -> Result<(), OutOfMemory>
    requires { length entries.now ≤ 64 }
    ensures { OnOk result
        (parts.new.items ≡ parts.old.items ++ picked is_low 0 entries.now) }
{
    for (cell, entry) in entries.iter().enumerate() {
        if *entry < 0 {
            parts.push(Part {
                cell: cell as u32,
                entry: *entry,
            })?;
        }
    }
    Ok(())
}

/// Adds the parts of the entries above 0.
pub fn push_highs(parts: &mut Vec<Part>, entries: &[i32]) -> Result<(), OutOfMemory>
    requires { length entries.now ≤ 64 }
    ensures { OnOk result
        (parts.new.items ≡ parts.old.items ++ picked is_high 0 entries.now) }
{
    for (cell, entry) in entries.iter().enumerate() {
        if 0 < *entry {
            parts.push(Part {
                cell: cell as u32,
                entry: *entry,
            })?;
        }
    }
    Ok(())
}

/// The entry of a cell, by the parts of a move over so many cells.
pub fn entry_at(parts: &[Part], cell: u32) -> i32
    requires apart { AreApart parts.now }
    ensures { (cells : ℕ) → cell < cells → All (λ part. part.cell < cells) parts.now →
        slice_index_or (entries_of cells parts.now) cell (pos 0) ≡ result }
{
    for part in parts {
        if part.cell == cell {
            return part.entry;
        }
    }
    0
}
