//! Exponents of the symbols of a column and of a cell.

ghost use Rattle.std.specs.Prelude.{◌≡◌, ◌<◌, IfOk, length};
ghost use Rattle.mb_matrix.specs.Matrix.{column_at};
ghost use Rattle.mb_tables.specs.Vectors.{unit, zeros};

use mb_matrix::Matrix;
use mb_tables::OutOfMemory;
use std::alloc::Global;

/// The entries of the column of a cell, row by row: the exponents of the margins' symbols that the
/// column counts. Cells count from 0.
pub fn column_of(alloc: Global, matrix: &Matrix, cell: u32) -> Result<Vec<u16>, OutOfMemory>
    requires { cell < length matrix.now.columns }
    ensures column { IfOk result (λ v. v.items ≡ column_at matrix.now cell) }
    ensures long { IfOk result (λ v. length v.items ≡ matrix.now.rows) }
{
    let rows = matrix.rows();
    let mut column = Vec::with_capacity(alloc, rows as usize)?;
    for row in 0..rows {
        column.push(matrix.entry(row, cell) as u16)?;
    }
    Ok(column)
}

/// So many exponents of 0.
pub fn zeros_of(alloc: Global, width: usize) -> Result<Vec<u16>, OutOfMemory>
    ensures zeros { IfOk result (λ v. v.items ≡ zeros width) }
    ensures long { IfOk result (λ v. length v.items ≡ width) }
{
    Ok(vec![in alloc; 0u16; width]?)
}

/// So many exponents: 1 at one place, from 0, and else 0.
pub fn unit_of(alloc: Global, width: usize, place: usize) -> Result<Vec<u16>, OutOfMemory>
    requires { place < width }
    ensures unit { IfOk result (λ v. v.items ≡ unit width place) }
    ensures long { IfOk result (λ v. length v.items ≡ width) }
{
    let mut unit = zeros_of(alloc, width)?;
    unit[place] = 1;
    Ok(unit)
}
