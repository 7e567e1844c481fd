//! A word at the front of a line, and what follows it.

ghost use Rattle.std.specs.Option.{option_map};
ghost use Rattle.std.specs.Prelude.{◌≡◌};
ghost use Rattle.mb_tables.specs.Answers.{Gives};
ghost use Rattle.mb_text.specs.Faults.{in_line};
ghost use Rattle.mb_text.specs.LineForms.{after, item_after, numbers_after, numbers_of, only};
ghost use Rattle.mb_text.specs.Lines.{items};
ghost use Rattle.mb_text.specs.RecordLines.{record_cause};

use crate::fault::LineFault;
use crate::pieces::{after_word, next_item};
use crate::plain_lines::read_numbers;
use crate::record_fault::RecordFault;
use std::alloc::Global;

/// The line after a word and a space.
pub fn rest_after<'a>(line: &'a [u8], word: &[u8]) -> Option<&'a [u8]>
    ensures { option_map (λ rest. items rest.now) result ≡ after word.now (items line.now) }
{
    match after_word(line, word) {
        None => None,
        Some(rest) => Some(rest),
    }
}

/// The only item of a line.
fn only_item(line: &[u8]) -> Option<&[u8]>
    ensures { option_map (λ item. item.now) result ≡ only (items line.now) }
{
    match next_item(line) {
        None => Some(line),
        Some(_) => None,
    }
}

/// The only item after a word.
pub fn item_after<'a>(line: &'a [u8], word: &[u8]) -> Option<&'a [u8]>
    ensures { option_map (λ item. item.now) result ≡ item_after word.now line.now }
{
    match rest_after(line, word) {
        None => None,
        Some(rest) => only_item(rest),
    }
}

/// The numbers of the line of this number, each below 2^32.
pub fn numbers_of(alloc: Global, line: &[u8], number: u32) -> Result<Vec<u32>, RecordFault>
    ensures { Gives record_cause (λ v. v.items) result
        (in_line number (numbers_of (items line.now))) }
{
    match read_numbers::<u32>(alloc, line, u64::from(number)) {
        Ok(numbers) => Ok(numbers),
        Err(LineFault::Wrong { line: _ }) => Err(RecordFault::Text { line: number }),
        Err(LineFault::OutOfMemory) => Err(RecordFault::OutOfMemory),
    }
}

/// The numbers after a word in the line of this number, each below 2^32.
pub fn numbers_after(
    alloc: Global,
    line: &[u8],
    word: &[u8],
    number: u32,
) -> Result<Vec<u32>, RecordFault>
    ensures { Gives record_cause (λ v. v.items) result
        (in_line number (numbers_after word.now (items line.now))) }
{
    match rest_after(line, word) {
        None => Err(RecordFault::Text { line: number }),
        Some(rest) => numbers_of(alloc, rest, number),
    }
}
