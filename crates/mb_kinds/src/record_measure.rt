//! The scale and the base in a record text.

ghost use Rattle.std.specs.Prelude.{◌≡◌, ◌≤◌, ◌+◌, IfOk, length};
ghost use Rattle.mb_kinds.specs.RecordText.{base_in, measure_in, scale_in, scheme_in};
ghost use Rattle.mb_matrix.specs.Measure.{IsMeasureOf, measure_of};
ghost use Rattle.mb_matrix.specs.Scheme.{scheme_of};
ghost use Rattle.mb_tables.specs.Answers.{Gives};
ghost use Rattle.mb_text.specs.Faults.{in_line, or_line};
ghost use Rattle.mb_text.specs.Lines.{lines};
ghost use Rattle.mb_text.specs.RecordLines.{record_cause, says};

use mb_matrix::{Matrix, Measure, MeasureFault, Scale, scale_fault};
use mb_text::{RecordFault, numbers_after, read_end, read_exactly, rest_after, take_line};
use std::alloc::Global;

/// The scale that a line says.
fn scale_of(alloc: Global, line: &[u8], number: u32) -> Result<Scale, RecordFault>
    ensures { Gives record_cause scheme_of result (in_line number (scheme_in line.now)) }
{
    if line == b"scale all".as_slice() {
        return Ok(Scale::All);
    }
    match rest_after(line, b"scale") {
        None => Err(RecordFault::Text { line: number }),
        Some(rest) => Ok(Scale::Rows(numbers_after(alloc, rest, b"rows", number)?)),
    }
}

/// The scale, where the matrix fixes its margins, and the text after its line.
#[tactic(auto, unfolding(mb_text::specs::RecordLines::says))]
fn read_scale<'a>(
    alloc: Global,
    text: &'a [u8],
    matrix: &Matrix,
    number: u32,
) -> Result<(Scale, &'a [u8]), RecordFault>
    ensures { Gives record_cause (λ p. (scheme_of p.0, lines p.1.now)) result
        (says number (scale_in matrix.now) (lines text.now)) }
{
    let (line, rest) = take_line(text, number)?;
    let scale = scale_of(alloc, line, number)?;
    match scale_fault(matrix, &scale) {
        None => Ok((scale, rest)),
        Some(_) => Err(RecordFault::Text { line: number }),
    }
}

/// The base numbers of so many cells, and the text after their line.
#[tactic(auto, unfolding(mb_text::specs::RecordLines::says))]
fn read_base(
    alloc: Global,
    text: &[u8],
    cells: u32,
    number: u32,
) -> Result<(Vec<u32>, &[u8]), RecordFault>
    ensures base { Gives record_cause (λ p. (p.0.items, lines p.1.now)) result
        (says number (base_in cells) (lines text.now)) }
    ensures full { IfOk result (λ p. length p.0.items ≡ cells) }
{
    let (line, rest) = take_line(text, number)?;
    let numbers = numbers_after(alloc, line, b"base", number)?;
    if numbers.len() == cells as usize {
        Ok((numbers, rest))
    } else {
        Err(RecordFault::Text { line: number })
    }
}

/// The measure of a scale and base numbers on a matrix, which is wrong at the line of this number
/// where it is refused.
fn measure_of(
    alloc: Global,
    matrix: &Matrix,
    scale: Scale,
    base: &[u32],
    number: u32,
) -> Result<Measure, RecordFault>
    requires { length base.now ≡ length matrix.now.columns }
    ensures made { Gives record_cause (λ m. m) result
        (or_line number (measure_of matrix.now (scheme_of scale) base.now)) }
    ensures sound { IfOk result (IsMeasureOf matrix.now) }
{
    match Measure::try_new(alloc, matrix, scale, base) {
        Ok(measure) => Ok(measure),
        Err(MeasureFault::OutOfMemory) => Err(RecordFault::OutOfMemory),
        Err(MeasureFault::BadScaleRow { row: _ }) => Err(RecordFault::Text { line: number }),
        Err(MeasureFault::ScaleNotCover { cell: _ }) => Err(RecordFault::Text { line: number }),
        Err(MeasureFault::BadBase { cell: _ }) => Err(RecordFault::Text { line: number }),
    }
}

/// The scale and the base on a matrix, from the line of this number on to the end of the text.
#[tactic(auto, unfolding(crate::specs::RecordText::measure_in))]
pub fn read_measure(
    alloc: Global,
    text: &[u8],
    matrix: &Matrix,
    number: u32,
) -> Result<Measure, RecordFault>
    requires { number ≤ 1000 }
    ensures measure { Gives record_cause (λ m. m) result
        (measure_in number matrix.now (lines text.now)) }
    ensures sound { IfOk result (IsMeasureOf matrix.now) }
{
    let (scale, text) = read_scale(alloc, text, matrix, number)?;
    let (base, text) = read_base(alloc, text, matrix.cols(), number + 1)?;
    let measure = measure_of(alloc, matrix, scale, base.as_slice(), number + 1)?;
    let text = read_exactly(text, b"end", number + 2)?;
    read_end(text, number + 3)?;
    Ok(measure)
}
