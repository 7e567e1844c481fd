//! Names of records.

ghost use Rattle.std.specs.List.{list_all};
ghost use Rattle.std.specs.Option.{option_map};
ghost use Rattle.std.specs.Prelude.{◌≡◌, IfSome, Ok};
ghost use Rattle.std.specs.String.{string_bytes};
ghost use Rattle.mb_tables.specs.Answers.{Gives};
ghost use Rattle.mb_text.specs.LineForms.{name_after};
ghost use Rattle.mb_text.specs.Lines.{lines};
ghost use Rattle.mb_text.specs.Name.{IsName, is_name, is_name_byte};
ghost use Rattle.mb_text.specs.RecordLines.{record_cause, says};

use crate::line_forms::item_after;
use crate::record_fault::RecordFault;
use crate::record_lines::take_line;
use std::alloc::Global;

/// Whether a byte may stand in a name.
fn is_name_byte(b: u8) -> bool
    ensures { result ≡ is_name_byte b }
{
    b.is_ascii_lowercase() || b.is_ascii_digit() || b == b'-' || b == b'_'
}

/// Whether each byte may stand in a name.
fn are_name_bytes(text: &[u8]) -> bool
    ensures { result ≡ list_all is_name_byte text.now }
{
    text.iter().all(|b| is_name_byte(*b))
}

/// Whether a text has the form of a name: 1 to 64 of `a` to `z`, `0` to `9`, `-` and `_`, the first
/// not `-`.
pub fn is_name(text: &[u8]) -> bool
    ensures { result ≡ is_name text.now }
{
    match text {
        [] => false,
        [first, ..] => *first != b'-' && text.len() <= 64 && are_name_bytes(text),
    }
}

/// A name as a string.
fn string_of(alloc: Global, name: &[u8]) -> Result<String, RecordFault>
    requires { IsName name.now }
    ensures { Gives record_cause string_bytes result (Ok name.now) }
{
    Ok(String::from_utf8_lossy(alloc, name)?)
}

/// The name after a word, as the only item there.
fn name_after<'a>(line: &'a [u8], word: &[u8]) -> Option<&'a [u8]>
    ensures name { option_map (λ name. name.now) result ≡ name_after word.now line.now }
    ensures form { IfSome result (λ name. IsName name.now) }
{
    match item_after(line, word) {
        Some(item) if is_name(item) => Some(item),
        _ => None,
    }
}

/// The name that the first line of a text has after a word, and the text after the line. The line
/// of this number is wrong where it has another form.
#[tactic(auto, unfolding(crate::specs::RecordLines::says))]
pub fn read_name<'a>(
    alloc: Global,
    text: &'a [u8],
    word: &[u8],
    number: u32,
) -> Result<(String, &'a [u8]), RecordFault>
    ensures { Gives record_cause (λ p. (string_bytes p.0, lines p.1.now)) result
        (says number (name_after word.now) (lines text.now)) }
{
    let (line, rest) = take_line(text, number)?;
    match name_after(line, word) {
        None => Err(RecordFault::Text { line: number }),
        Some(name) => Ok((string_of(alloc, name)?, rest)),
    }
}
