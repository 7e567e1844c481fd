//! The cells among the entries of a table.

ghost use Rattle.std.specs.Prelude.{◌≡◌, IfOk};
ghost use Rattle.mb_data.specs.CrossTable.{cell_numbers, counts};

use crate::entry::Entry;
use mb_tables::OutOfMemory;
use std::alloc::Global;

/// The counts of the cells, in the order of the combinations.
pub(crate) fn cell_counts(alloc: Global, entries: &[Entry]) -> Result<Vec<u32>, OutOfMemory>
    ensures { IfOk result (λ list. list.items ≡ counts entries.now) }
{
    let mut list = Vec::new(alloc);
    for entry in entries {
        match *entry {
            Entry::Count(count) => list.push(count)?,
            Entry::StructuralZero => {}
        }
    }
    Ok(list)
}

/// The numbers of the combinations that are cells.
pub(crate) fn numbers_of_cells(alloc: Global, entries: &[Entry]) -> Result<Vec<usize>, OutOfMemory>
    ensures { IfOk result (λ numbers. numbers.items ≡ cell_numbers entries.now) }
{
    let mut numbers = Vec::new(alloc);
    for (number, entry) in entries.iter().enumerate() {
        match *entry {
            Entry::Count(_count) => numbers.push(number)?,
            Entry::StructuralZero => {}
        }
    }
    Ok(numbers)
}
