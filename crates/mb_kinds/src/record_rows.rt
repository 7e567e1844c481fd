//! The rows of the matrix in a record text.

ghost use Rattle.std.specs.Prelude.{◌≡◌, ◌≤◌, ◌*◌, ◌-◌, ◌^◌, IfOk, length};
ghost use Rattle.mb_kinds.specs.RecordText.{row_in, rows_in};
ghost use Rattle.mb_tables.specs.Answers.{Gives};
ghost use Rattle.mb_tables.specs.Limits.{most_cells};
ghost use Rattle.mb_text.specs.Faults.{in_line};
ghost use Rattle.mb_text.specs.Lines.{items, lines};
ghost use Rattle.mb_text.specs.Plain.{each_of, plain_signed_of, size_at_most};
ghost use Rattle.mb_text.specs.RecordLines.{record_cause, says};

use mb_matrix::are_design_entries;
use mb_text::{LineFault, RecordFault, read_numbers, take_line};
use std::alloc::Global;

/// The numbers of a line, which may be below 0.
fn signed_numbers(alloc: Global, line: &[u8], number: u32) -> Result<Vec<i32>, RecordFault>
    ensures { Gives record_cause (λ v. v.items) result
        (in_line number (each_of (λ item. size_at_most (2 ^ 31 - 1) (plain_signed_of item))
        (items line.now))) }
{
    match read_numbers::<i32>(alloc, line, u64::from(number)) {
        Ok(numbers) => Ok(numbers),
        Err(LineFault::Wrong { line: _ }) => Err(RecordFault::Text { line: number }),
        Err(LineFault::OutOfMemory) => Err(RecordFault::OutOfMemory),
    }
}

/// The entries of a row of so many cells, each 0 to 1,000, and the text after its line.
#[tactic(auto, unfolding(mb_text::specs::RecordLines::says))]
fn read_row(
    alloc: Global,
    text: &[u8],
    cells: u32,
    number: u32,
) -> Result<(Vec<i32>, &[u8]), RecordFault>
    ensures row { Gives record_cause (λ p. (p.0.items, lines p.1.now)) result
        (says number (row_in cells) (lines text.now)) }
    ensures whole { IfOk result (λ p. length p.0.items ≡ cells) }
{
    let (line, rest) = take_line(text, number)?;
    let row = signed_numbers(alloc, line, number)?;
    if row.len() == cells as usize && are_design_entries(row.as_slice()) {
        Ok((row, rest))
    } else {
        Err(RecordFault::Text { line: number })
    }
}

/// The entries of so many rows, row by row, and the text after them.
pub fn read_rows(
    alloc: Global,
    text: &[u8],
    rows: u32,
    cells: u32,
    number: u32,
) -> Result<(Vec<i32>, &[u8]), RecordFault>
    requires few { rows ≤ most_cells }
    requires first { number ≤ most_cells }
    ensures rows { Gives record_cause (λ p. (p.0.items, lines p.1.now)) result
        (rows_in number cells rows (lines text.now)) }
    ensures full { IfOk result (λ p. length p.0.items ≡ rows * cells) }
{
    let mut entries = Vec::new(alloc);
    let mut rest = text;
    for row in 0..rows {
        let (entries_of_row, after) = read_row(alloc, rest, cells, number + row)?;
        entries.extend_from_slice(entries_of_row.as_slice())?;
        rest = after;
    }
    Ok((entries, rest))
}
