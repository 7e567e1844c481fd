//! Lines of a record's text, one after the other.

ghost use Rattle.std.specs.Prelude.{◌≡◌};
ghost use Rattle.mb_tables.specs.Answers.{Gives};
ghost use Rattle.mb_text.specs.LineForms.{exactly};
ghost use Rattle.mb_text.specs.Lines.{lines};
ghost use Rattle.mb_text.specs.RecordLines.{ends, first_line, record_cause, says};

use crate::pieces::next_line;
use crate::record_fault::RecordFault;

/// The first line of a text and the text after it. The line of this number is wrong where the text
/// has no line end.
pub fn take_line(text: &[u8], number: u32) -> Result<(&[u8], &[u8]), RecordFault>
    ensures { Gives record_cause (λ p. (p.0.now, lines p.1.now)) result
        (first_line number (lines text.now)) }
{
    match next_line(text) {
        None => Err(RecordFault::Text { line: number }),
        Some((line, rest)) => Ok((line, rest)),
    }
}

/// The text after a line that is exactly this one.
#[tactic(auto, unfolding(crate::specs::RecordLines::says))]
pub fn read_exactly<'a>(text: &'a [u8], wanted: &[u8], number: u32) -> Result<&'a [u8], RecordFault>
    ensures { Gives record_cause (λ rest. (tt, lines rest.now)) result
        (says number (exactly wanted.now) (lines text.now)) }
{
    let (line, rest) = take_line(text, number)?;
    if line == wanted {
        Ok(rest)
    } else {
        Err(RecordFault::Text { line: number })
    }
}

/// Whether the text ends here, after the line end before it.
pub fn read_end(text: &[u8], number: u32) -> Result<(), RecordFault>
    ensures { Gives record_cause (λ _. tt) result (ends number (lines text.now)) }
{
    if text.is_empty() {
        Ok(())
    } else {
        Err(RecordFault::Text { line: number })
    }
}
