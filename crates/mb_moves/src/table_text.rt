//! The table of a table file, which is written as a move file of one row.

ghost use Rattle.std.specs.Prelude.{◌≡◌, ◌≤◌, IfOk, int_le, length, map, pos, sum, unsigned_abs};
ghost use Rattle.std.specs.List.{list_all};
ghost use Rattle.mb_tables.specs.Answers.{Gives};
ghost use Rattle.mb_tables.specs.Limits.{largest_total, most_cells};
ghost use Rattle.mb_moves.specs.TableText.{are_counts, table_cause, table_in};

use mb_tables::{LARGEST_TOTAL, MOST_CELLS, Moves, OutOfMemory, Table};
use std::alloc::Global;

/// Why the moves of a file are no table.
#[derive(Clone, Copy, Debug, PartialEq, Eq)]
pub enum NoTable {
    /// There isn't one row of the wanted width, or an entry is below 0, or the entries add up to
    /// more than 1,000,000.
    NotATable,
    /// Out of memory.
    OutOfMemory,
}

/// Whether no entry is below 0.
fn are_unsigned(entries: &[i32]) -> bool
    ensures { result ≡ list_all (λ z. int_le (pos 0) z) entries.now }
{
    entries.iter().all(|entry| 0 <= *entry)
}

/// The sum of the entries without their signs.
fn total(entries: &[i32]) -> u64
    requires { length entries.now ≤ most_cells }
    ensures { result ≡ sum (map unsigned_abs entries.now) }
{
    entries
        .iter()
        .map(|entry| u64::from(entry.unsigned_abs()))
        .sum()
}

/// Whether entries are counts that add up to no more than a table may hold.
fn are_counts(entries: &[i32]) -> bool
    requires { length entries.now ≤ most_cells }
    ensures { result ≡ are_counts entries.now }
{
    are_unsigned(entries) && total(entries) <= u64::from(LARGEST_TOTAL)
}

/// The table of entries that are counts.
fn table_of_counts(alloc: Global, entries: &[i32]) -> Result<Table, OutOfMemory>
    requires { length entries.now ≤ most_cells }
    ensures { IfOk result (λ table. table ≡ map unsigned_abs entries.now) }
{
    let counts: Vec<u32> = entries
        .iter()
        .map(|entry| entry.unsigned_abs())
        .collect(alloc)?;
    Table::from_counts(alloc, counts.as_slice())
}

/// The table that the moves of a table file are, over so many cells: one row of that width, with
/// no entry below 0 and a sum of at most 1,000,000.
pub fn table_of_file(alloc: Global, file: &Moves, cells: u32) -> Result<Table, NoTable>
    ensures exact { Gives table_cause (λ table. table) result (table_in cells file.now) }
    ensures cells { IfOk result (λ table. length table ≡ cells) }
    ensures total { IfOk result (λ table. sum table ≤ largest_total) }
{
    let [row] = file.as_slice() else {
        return Err(NoTable::NotATable);
    };
    if file.width() != cells {
        return Err(NoTable::NotATable);
    }
    let mut entries = [0i32; MOST_CELLS as usize];
    let entries = &mut entries[..row.len() as usize];
    row.copy_to_slice(entries);
    if !are_counts(entries) {
        return Err(NoTable::NotATable);
    }
    match table_of_counts(alloc, entries) {
        Ok(table) => Ok(table),
        Err(_) => Err(NoTable::OutOfMemory),
    }
}
