//! The tests of a scale on a design matrix.

ghost use Rattle.std.specs.List.{count_by, find, list_all};
ghost use Rattle.std.specs.Prelude.{◌≡◌, ◌==◌, ◌<◌, length, nat_le, not, sum};
ghost use Rattle.mb_matrix.specs.Matrix.{column_at};
ghost use Rattle.mb_matrix.specs.Measure.{has_cell, is_group_row, rows_fault, scale_fault, total_fault, uncovered, uneven};
ghost use Rattle.mb_matrix.specs.Scheme.{scheme_of};

use crate::matrix::Matrix;
use crate::measure_fault::MeasureFault;
use crate::scale::Scale;

/// Whether each entry of a row is 0 or 1.
fn is_zeros_and_ones(row: &[u16]) -> bool
    ensures { result ≡ list_all (λ entry. nat_le entry 1) row.now }
{
    row.iter().all(|entry| *entry <= 1)
}

/// Whether there is a row of this number, from 1, and each of its entries is 0 or 1.
fn is_group_row(matrix: &Matrix, n: u32) -> bool
    ensures { result ≡ is_group_row matrix.now n }
{
    if n == 0 || n > matrix.rows() {
        return false;
    }
    is_zeros_and_ones(matrix.row(n - 1))
}

/// The first number that is no row of zeros and ones.
fn first_bad_row(matrix: &Matrix, rows: &[u32]) -> Option<u32>
    ensures { result ≡ find (λ n. not (is_group_row matrix.now n)) rows.now }
{
    for n in rows {
        if !is_group_row(matrix, *n) {
            return Some(*n);
        }
    }
    None
}

/// Whether the row of this number, from 1, has a 1 at a cell.
pub fn has_cell(matrix: &Matrix, n: u32, cell: u32) -> bool
    requires { cell < length matrix.now.columns }
    ensures { result ≡ has_cell matrix.now cell n }
{
    if n == 0 {
        return false;
    }
    if n > matrix.rows() {
        return false;
    }
    matrix.entry(n - 1, cell) == 1
}

/// Whether a cell is in exactly one of these rows, where a row named twice counts twice.
fn is_covered(matrix: &Matrix, rows: &[u32], cell: u32) -> bool
    requires { cell < length matrix.now.columns }
    ensures { result ≡ (count_by (has_cell matrix.now cell) rows.now == 1) }
{
    let mut count = 0usize;
    for n in rows {
        if has_cell(matrix, *n, cell) {
            count += 1;
        }
    }
    count == 1
}

/// The lowest cell that isn't in exactly one of these rows.
fn first_uncovered(matrix: &Matrix, rows: &[u32]) -> Option<u32>
    ensures { result ≡ uncovered matrix.now rows.now }
{
    for cell in 0..matrix.cols() {
        if !is_covered(matrix, rows, cell) {
            return Some(cell);
        }
    }
    None
}

/// The sum of the column of a cell.
fn column_sum(matrix: &Matrix, cell: u32) -> u32
    requires { cell < length matrix.now.columns }
    ensures { result ≡ sum (column_at matrix.now cell) }
{
    let mut sum = 0;
    for row in 0..matrix.rows() {
        sum += matrix.entry(row, cell);
    }
    sum
}

/// The lowest cell whose column adds up to another sum than that of cell 0.
fn first_uneven(matrix: &Matrix) -> Option<u32>
    ensures { result ≡ uneven matrix.now }
{
    let cols = matrix.cols();
    let first = column_sum(matrix, 0);
    for cell in 0..cols {
        if column_sum(matrix, cell) != first {
            return Some(cell);
        }
    }
    None
}

/// Why a design matrix doesn't fix the total, if it doesn't.
fn total_fault(matrix: &Matrix) -> Option<MeasureFault>
    ensures { result ≡ total_fault matrix.now }
{
    match first_uneven(matrix) {
        None => None,
        Some(cell) => Some(MeasureFault::ScaleNotCover { cell }),
    }
}

/// Why these rows don't group the cells, if they don't.
fn rows_fault(matrix: &Matrix, rows: &[u32]) -> Option<MeasureFault>
    ensures { result ≡ rows_fault matrix.now rows.now }
{
    if let Some(row) = first_bad_row(matrix, rows) {
        return Some(MeasureFault::BadScaleRow { row });
    }
    match first_uncovered(matrix, rows) {
        None => None,
        Some(cell) => Some(MeasureFault::ScaleNotCover { cell }),
    }
}

/// The first fault of a scale on a design matrix, as for a measure: a number that is no row of
/// zeros and ones, or a cell that isn't covered. It takes no memory.
pub fn scale_fault(matrix: &Matrix, scale: &Scale) -> Option<MeasureFault>
    ensures { result ≡ scale_fault matrix.now (scheme_of scale.now) }
{
    match scale {
        Scale::All => total_fault(matrix),
        Scale::Rows(rows) => rows_fault(matrix, rows.as_slice()),
    }
}
