//! The sizes of the matrix in a record text.

ghost use Rattle.std.specs.Prelude.{◌≡◌, ◌≤◌, IfOk, IfSome};
ghost use Rattle.mb_kinds.specs.RecordText.{sizes_in, two_sizes};
ghost use Rattle.mb_tables.specs.Answers.{Gives};
ghost use Rattle.mb_tables.specs.Limits.{most_cells};
ghost use Rattle.mb_text.specs.Lines.{lines};
ghost use Rattle.mb_text.specs.RecordLines.{record_cause, says};

use mb_tables::MOST_CELLS;
use mb_text::{RecordFault, numbers_after, take_line};
use std::alloc::Global;

/// Two numbers, each of 1 to 64.
fn two_sizes(numbers: &[u32]) -> Option<(u32, u32)>
    ensures sizes { result ≡ two_sizes numbers.now }
    ensures rows { IfSome result (λ p. p.0 ≤ most_cells) }
    ensures cells { IfSome result (λ p. p.1 ≤ most_cells) }
{
    match numbers {
        [rows, cells] if 1 <= *rows && *rows <= MOST_CELLS && 1 <= *cells && *cells <= MOST_CELLS =>
            { Some((*rows, *cells)) }
        _ => None,
    }
}

/// The numbers of rows and of cells, 1 to 64 each, and the text after their line.
#[tactic(auto, unfolding(mb_text::specs::RecordLines::says))]
pub fn read_sizes(
    alloc: Global,
    text: &[u8],
    number: u32,
) -> Result<((u32, u32), &[u8]), RecordFault>
    ensures sizes { Gives record_cause (λ p. (p.0, lines p.1.now)) result
        (says number sizes_in (lines text.now)) }
    ensures rows { IfOk result (λ p. p.0.0 ≤ most_cells) }
    ensures cells { IfOk result (λ p. p.0.1 ≤ most_cells) }
{
    let (line, rest) = take_line(text, number)?;
    let numbers = numbers_after(alloc, line, b"matrix", number)?;
    match two_sizes(numbers.as_slice()) {
        None => Err(RecordFault::Text { line: number }),
        Some(sizes) => Ok((sizes, rest)),
    }
}
