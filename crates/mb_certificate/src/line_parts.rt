//! The lines of a certificate, each from its items.

ghost use Rattle.std.specs.Prelude.{◌≡◌, ◌+◌, ◌≤◌, IfOk, length};
ghost use Rattle.mb_certificate.specs.CertificateText.{all_of, counted, entry, exponent, one_word, order_in, read_cause, row_in, rule_in, sizes_in, symbol_count, traces_in, two_words};
ghost use Rattle.mb_certificate.specs.Reading.{one, times};
ghost use Rattle.mb_certificate.specs.Sides.{PairSuits, sides};
ghost use Rattle.mb_order.specs.Weight.{Suits};
ghost use Rattle.mb_tables.specs.Answers.{Gives};
ghost use Rattle.mb_tables.specs.Limits.{most_cells};

use crate::fault::ReadFault;
use crate::item_number::ItemNumber;
use crate::items::Items;
use crate::parts::Pair;
use mb_matrix::{Matrix, are_design_entries};
use mb_order::{Monomial, Order};
use mb_tables::{MOST_CELLS, Move};
use std::alloc::Global;

/// So many numbers, item by item. There is room for them at once, but for no more than the line can
/// have.
fn numbers<N: ItemNumber>(alloc: Global, items: &mut Items, count: u64) -> Result<Vec<N>, ReadFault>
    ensures numbers { Gives read_cause (λ v. (v.items, items.new)) result
        (times (one N.of_item) count items.old) }
    ensures many { IfOk result (λ v. length v.items ≡ count) }
{
    let room = count.min(items.most());
    let mut numbers = Vec::with_capacity(alloc, room as usize)?;
    for _ in 0..count {
        numbers.push(items.one::<N>()?)?;
    }
    Ok(numbers)
}

/// So many numbers, and the end of the line.
pub fn all_of<N: ItemNumber>(
    alloc: Global,
    items: &mut Items,
    count: u64,
) -> Result<Vec<N>, ReadFault>
    ensures numbers { Gives read_cause (λ v. v.items) result (all_of N.of_item count items.old) }
    ensures many { IfOk result (λ v. length v.items ≡ count) }
{
    let numbers = numbers::<N>(alloc, items, count)?;
    items.end()?;
    Ok(numbers)
}

/// A line of one word.
pub fn one_word(items: &mut Items, word: &[u8]) -> Result<(), ReadFault>
    ensures { Gives read_cause (λ _. tt) result (one_word word.now items.old) }
{
    items.word(word)?;
    items.end()
}

/// A line of two words.
pub fn two_words(items: &mut Items, first: &[u8], second: &[u8]) -> Result<(), ReadFault>
    ensures { Gives read_cause (λ _. tt) result (two_words first.now second.now items.old) }
{
    items.word(first)?;
    items.word(second)?;
    items.end()
}

/// The numbers of rows and of cells, 1 to 64 each.
pub fn sizes(items: &mut Items) -> Result<(u32, u32), ReadFault>
    ensures sizes { Gives read_cause (λ s. s) result (sizes_in items.old) }
    ensures rows { IfOk result (λ s. s.0 ≤ most_cells) }
    ensures cells { IfOk result (λ s. s.1 ≤ most_cells) }
{
    items.word(b"matrix")?;
    let rows = items.within(1, u64::from(MOST_CELLS))?;
    let cells = items.within(1, u64::from(MOST_CELLS))?;
    items.end()?;
    Ok((rows as u32, cells as u32))
}

/// A row of the matrix, of so many cells.
pub fn row(alloc: Global, items: &mut Items, cells: u32) -> Result<Vec<i32>, ReadFault>
    ensures row { Gives read_cause (λ v. v.items) result (row_in cells items.old) }
    ensures whole { IfOk result (λ v. length v.items ≡ cells) }
{
    let number = items.number();
    let row = all_of::<i32>(alloc, items, u64::from(cells))?;
    if are_design_entries(row.as_slice()) {
        Ok(row)
    } else {
        Err(ReadFault::Text { line: number })
    }
}

/// The order of monomials.
pub fn order(items: &mut Items) -> Result<Order, ReadFault>
    ensures { Gives read_cause (λ o. o) result (order_in items.old) }
{
    items.word(b"order")?;
    let order = items.order()?;
    items.end()?;
    Ok(order)
}

/// A number from the lowest to the highest, after a word.
pub fn counted(items: &mut Items, word: &[u8], lowest: u64, highest: u64) -> Result<u64, ReadFault>
    ensures count { Gives read_cause (λ n. n) result (counted word.now lowest highest items.old) }
    ensures highest { IfOk result (λ n. n ≤ highest) }
{
    items.word(word)?;
    let count = items.within(lowest, highest)?;
    items.end()?;
    Ok(count)
}

/// A move over so many cells.
pub fn one_move(alloc: Global, items: &mut Items, cells: u32) -> Result<Move, ReadFault>
    requires { cells ≤ most_cells }
    ensures entries { Gives read_cause (λ z. z) result (all_of entry cells items.old) }
    ensures whole { IfOk result (λ z. length z ≡ cells) }
{
    let entries = all_of::<i32>(alloc, items, u64::from(cells))?;
    Ok(Move::from_entries(alloc, entries.as_slice())?)
}

/// A side of a rule.
fn side(alloc: Global, items: &mut Items, matrix: &Matrix) -> Result<Monomial, ReadFault>
    ensures side { Gives read_cause (λ m. (m.list, items.new)) result
        (times (one exponent) (symbol_count matrix.now) items.old) }
    ensures shape { IfOk result (Suits matrix.now) }
{
    let (rows, cells) = (matrix.rows(), matrix.cols());
    let exponents = numbers::<u16>(alloc, items, u64::from(rows + cells))?;
    let (margins, cells) = exponents.as_slice().split_at(rows as usize);
    Ok(Monomial::try_new(alloc, margins, cells)?)
}

/// A rule.
pub fn rule(alloc: Global, items: &mut Items, matrix: &Matrix) -> Result<Pair, ReadFault>
    ensures rule { Gives read_cause sides result (rule_in (symbol_count matrix.now) items.old) }
    ensures shape { IfOk result (PairSuits matrix.now) }
{
    let left = side(alloc, items, matrix)?;
    items.word(b">")?;
    let right = side(alloc, items, matrix)?;
    items.end()?;
    Ok(Pair { left, right })
}

/// Two lists of rule numbers, after their lengths.
pub fn traces(alloc: Global, items: &mut Items) -> Result<(Vec<u32>, Vec<u32>), ReadFault>
    ensures { Gives read_cause (λ t. (t.0.items, t.1.items)) result (traces_in items.old) }
{
    let first = items.one::<u64>()?;
    let second = items.one::<u64>()?;
    let numbers = numbers::<u32>(alloc, items, first)?;
    let others = all_of::<u32>(alloc, items, second)?;
    Ok((numbers, others))
}
