//! The lines of a report, each read by itself.

ghost use Rattle.std.specs.Prelude.{◌≡◌, ◌≤◌, ◌^◌, ◌<◌, IfOk, IfSome, sum};
ghost use Rattle.mb_reports.specs.ReportText.{are_sums, decimals_in, fraction_in, observed_in, positive_number, rings_in, sums_of, tables_in, two_numbers, weight_in};
ghost use Rattle.mb_tables.specs.Answers.{Gives};
ghost use Rattle.mb_text.specs.Lines.{lines, pieces};
ghost use Rattle.mb_text.specs.RecordLines.{record_cause, says};

use mb_tables::{MOST_CELLS, Table};
use mb_text::{
    RecordFault, is_numeral, is_written, item_after, next_piece, numbers_after, plain_number,
    take_line,
};
use mb_weights::decimals;
use std::alloc::Global;

/// How many tables rings of these sizes have in all.
pub(crate) fn tables_in_all(rings: &[u32]) -> u128
    ensures total { result ≡ sum rings.now }
    ensures fits { sum rings.now < 2 ^ 128 }
{
    rings.iter().map(|size| u128::from(*size)).sum()
}

/// The observed table, and the text after its line. The line is wrong where it hasn't 1 to 64
/// counts.
#[tactic(auto, unfolding(mb_text::specs::RecordLines::says))]
pub(crate) fn read_observed(
    alloc: Global,
    text: &[u8],
    number: u32,
) -> Result<(Table, &[u8]), RecordFault>
    ensures { Gives record_cause (λ p. (p.0, lines p.1.now)) result
        (says number observed_in (lines text.now)) }
{
    let (line, rest) = take_line(text, number)?;
    let counts = numbers_after(alloc, line, b"observed", number)?;
    if counts.len() > MOST_CELLS as usize {
        return Err(RecordFault::Text { line: number });
    }
    Ok((Table::from_counts(alloc, counts.as_slice())?, rest))
}

/// The number of tables as it is written, and the text after its line.
#[tactic(auto, unfolding(mb_text::specs::RecordLines::says))]
pub(crate) fn read_tables(text: &[u8], number: u32) -> Result<(&[u8], &[u8]), RecordFault>
    ensures { Gives record_cause (λ p. (p.0.now, lines p.1.now)) result
        (says number tables_in (lines text.now)) }
{
    let (line, rest) = take_line(text, number)?;
    match item_after(line, b"tables") {
        Some(item) if is_numeral(item) => Ok((item, rest)),
        _ => Err(RecordFault::Text { line: number }),
    }
}

/// The sizes of the rings, and the text after their line. The line is wrong where they haven't so
/// many tables in all.
#[tactic(auto, unfolding(mb_text::specs::RecordLines::says))]
pub(crate) fn read_rings<'a>(
    alloc: Global,
    text: &'a [u8],
    tables: &[u8],
    number: u32,
) -> Result<(Vec<u32>, &'a [u8]), RecordFault>
    ensures { Gives record_cause (λ p. (p.0.items, lines p.1.now)) result
        (says number (rings_in tables.now) (lines text.now)) }
{
    let (line, rest) = take_line(text, number)?;
    let rings = numbers_after(alloc, line, b"rings", number)?;
    if is_written(tables, tables_in_all(rings.as_slice())) {
        Ok((rings, rest))
    } else {
        Err(RecordFault::Text { line: number })
    }
}

/// The number from 1 on, below 2^128, that an item is.
fn positive_number(item: &[u8]) -> Option<u128>
    ensures number { result ≡ positive_number item.now }
    ensures some { IfSome result (λ n. 1 ≤ n) }
{
    match plain_number(item, u128::MAX) {
        Some(n) if n >= 1 => Some(n),
        _ => None,
    }
}

/// The weight of the observed table, at least 1, and the text after its line.
#[tactic(auto, unfolding(mb_text::specs::RecordLines::says))]
pub(crate) fn read_weight(text: &[u8], number: u32) -> Result<(u128, &[u8]), RecordFault>
    ensures weight { Gives record_cause (λ p. (p.0, lines p.1.now)) result
        (says number weight_in (lines text.now)) }
    ensures some { IfOk result (λ p. 1 ≤ p.0) }
{
    let (line, rest) = take_line(text, number)?;
    match item_after(line, b"weight") {
        None => Err(RecordFault::Text { line: number }),
        Some(item) => match positive_number(item) {
            None => Err(RecordFault::Text { line: number }),
            Some(weight) => Ok((weight, rest)),
        },
    }
}

/// The two numbers below 2^128 on the sides of an item's one `/`.
fn two_numbers(item: &[u8]) -> Option<(u128, u128)>
    ensures { result ≡ two_numbers (pieces 47 item.now) }
{
    let (below, whole) = next_piece(item, b'/')?;
    match next_piece(whole, b'/') {
        Some(_) => None,
        None => Some((
            plain_number(below, u128::MAX)?,
            plain_number(whole, u128::MAX)?,
        )),
    }
}

/// The two sums of a fraction, where the first is no less than the weight and no more than the
/// second.
fn sums_of(item: &[u8], weight: u128) -> Option<(u128, u128)>
    ensures sums { result ≡ sums_of weight item.now }
    ensures low { IfSome result (λ p. weight ≤ p.0) }
    ensures high { IfSome result (λ p. p.0 ≤ p.1) }
{
    match two_numbers(item) {
        Some((below, whole)) if weight <= below && below <= whole => Some((below, whole)),
        _ => None,
    }
}

/// The two sums of the exact p-value of a table of this weight, and the text after their line.
#[tactic(auto, unfolding(mb_text::specs::RecordLines::says))]
pub(crate) fn read_fraction(
    text: &[u8],
    weight: u128,
    number: u32,
) -> Result<((u128, u128), &[u8]), RecordFault>
    ensures sums { Gives record_cause (λ p. (p.0, lines p.1.now)) result
        (says number (fraction_in weight) (lines text.now)) }
    ensures low { IfOk result (λ p. weight ≤ p.0.0) }
    ensures high { IfOk result (λ p. p.0.0 ≤ p.0.1) }
{
    let (line, rest) = take_line(text, number)?;
    match item_after(line, b"fraction") {
        None => Err(RecordFault::Text { line: number }),
        Some(item) => match sums_of(item, weight) {
            None => Err(RecordFault::Text { line: number }),
            Some(sums) => Ok((sums, rest)),
        },
    }
}

/// The text after the line of a fraction's decimals.
#[tactic(auto, unfolding(mb_text::specs::RecordLines::says))]
pub(crate) fn read_decimals(
    text: &[u8],
    sums: (u128, u128),
    number: u32,
) -> Result<&[u8], RecordFault>
    requires above { 1 ≤ sums.1 }
    requires at_most { sums.0 ≤ sums.1 }
    ensures { Gives record_cause (λ rest. (tt, lines rest.now)) result
        (says number (decimals_in sums) (lines text.now)) }
{
    let (below, whole) = sums;
    let (line, rest) = take_line(text, number)?;
    match item_after(line, b"decimals") {
        Some(item) if item == decimals(below, whole).as_slice() => Ok(rest),
        _ => Err(RecordFault::Text { line: number }),
    }
}
