//! The lines that a certificate begins with: its matrix and the order.

ghost use Rattle.std.specs.Prelude.{◌≡◌, ◌≤◌, ◌*◌, IfOk, length};
ghost use Rattle.mb_certificate.specs.CertificateText.{head_in, matrix_in, order_in, read_cause, row_in, sizes_in, two_words};
ghost use Rattle.mb_text.specs.Faults.{or_line};
ghost use Rattle.mb_certificate.specs.Reading.{says, times};
ghost use Rattle.mb_matrix.specs.Faults.{matrix_of};
ghost use Rattle.mb_tables.specs.Answers.{Gives};
ghost use Rattle.mb_tables.specs.Limits.{most_cells};
ghost use Rattle.mb_tables.specs.Rows.{array_of, rows_of};
ghost use Rattle.std.specs.Prelude.{codes};

use crate::fault::ReadFault;
use crate::line_parts::{order, row, sizes, two_words};
use crate::lines::Lines;
use mb_matrix::{Matrix, MatrixFault};
use mb_order::Order;
use std::alloc::Global;

/// The numbers of rows and of cells that the next line says.
#[tactic(auto, unfolding(crate::specs::Reading::says))]
fn read_sizes(lines: &mut Lines) -> Result<(u32, u32), ReadFault>
    ensures sizes { Gives read_cause (λ s. (s, lines.new)) result (says sizes_in lines.old) }
    ensures rows { IfOk result (λ s. s.0 ≤ most_cells) }
    ensures cells { IfOk result (λ s. s.1 ≤ most_cells) }
{
    let mut items = lines.next()?;
    let sizes = sizes(&mut items)?;
    Ok(sizes)
}

/// The row of the matrix that the next line is.
#[tactic(auto, unfolding(crate::specs::Reading::says))]
fn read_row(alloc: Global, lines: &mut Lines, cells: u32) -> Result<Vec<i32>, ReadFault>
    ensures row { Gives read_cause (λ v. (v.items, lines.new)) result
        (says (row_in cells) lines.old) }
    ensures whole { IfOk result (λ v. length v.items ≡ cells) }
{
    let mut items = lines.next()?;
    let row = row(alloc, &mut items, cells)?;
    Ok(row)
}

/// The entries of so many rows, row by row.
fn read_rows(alloc: Global, lines: &mut Lines, rows: u32, cells: u32) -> Result<Vec<i32>, ReadFault>
    ensures rows { Gives read_cause (λ v. (rows_of cells rows v.items, lines.new)) result
        (times (says (row_in cells)) rows lines.old) }
    ensures full { IfOk result (λ v. length v.items ≡ rows * cells) }
{
    let mut entries = Vec::new(alloc);
    for _ in 0..rows {
        let row = read_row(alloc, lines, cells)?;
        entries.extend_from_slice(row.as_slice())?;
    }
    Ok(entries)
}

/// The design matrix of these entries, which is wrong at the line of this number where it is
/// refused.
fn matrix_of(
    alloc: Global,
    rows: u32,
    cells: u32,
    entries: &[i32],
    line: u64,
) -> Result<Matrix, ReadFault>
    requires { length entries.now ≡ rows * cells }
    ensures { Gives read_cause (λ m. m) result
        (or_line line (matrix_of (array_of cells rows entries.now))) }
{
    match Matrix::try_new(alloc, rows, cells, entries) {
        Ok(matrix) => Ok(matrix),
        Err(MatrixFault::OutOfMemory) => Err(ReadFault::OutOfMemory),
        Err(MatrixFault::TooManyCells) => Err(ReadFault::Text { line }),
        Err(MatrixFault::TooManyMargins) => Err(ReadFault::Text { line }),
        Err(MatrixFault::Negative { row: _, cell: _ }) => Err(ReadFault::Text { line }),
        Err(MatrixFault::EntryTooLarge { row: _, cell: _ }) => Err(ReadFault::Text { line }),
        Err(MatrixFault::ZeroColumn { cell: _ }) => Err(ReadFault::Text { line }),
    }
}

/// The matrix.
#[tactic(auto, unfolding(crate::specs::CertificateText::matrix_in))]
fn read_matrix(alloc: Global, lines: &mut Lines) -> Result<Matrix, ReadFault>
    ensures { Gives read_cause (λ m. (m, lines.new)) result (matrix_in lines.old) }
{
    let (rows, cells) = read_sizes(lines)?;
    let entries = read_rows(alloc, lines, rows, cells)?;
    let last = lines.number() - 1;
    let matrix = matrix_of(alloc, rows, cells, entries.as_slice(), last)?;
    Ok(matrix)
}

/// The line that names the format.
#[tactic(auto, unfolding(crate::specs::Reading::says))]
fn read_version(lines: &mut Lines) -> Result<(), ReadFault>
    ensures { Gives read_cause (λ _. (tt, lines.new)) result
        (says (two_words (codes "certificate") (codes "1")) lines.old) }
{
    let mut items = lines.next()?;
    two_words(&mut items, b"certificate", b"1")?;
    Ok(())
}

/// The order that the next line names.
#[tactic(auto, unfolding(crate::specs::Reading::says))]
fn read_order(lines: &mut Lines) -> Result<Order, ReadFault>
    ensures { Gives read_cause (λ o. (o, lines.new)) result (says order_in lines.old) }
{
    let mut items = lines.next()?;
    let order = order(&mut items)?;
    Ok(order)
}

/// What a certificate begins with.
#[tactic(auto, unfolding(crate::specs::CertificateText::head_in))]
pub fn read_head(alloc: Global, lines: &mut Lines) -> Result<(Matrix, Order), ReadFault>
    ensures { Gives read_cause (λ h. (h, lines.new)) result (head_in lines.old) }
{
    read_version(lines)?;
    let matrix = read_matrix(alloc, lines)?;
    let order = read_order(lines)?;
    Ok((matrix, order))
}
