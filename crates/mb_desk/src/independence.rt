//! The model of independence on 4 x 4 tables.

ghost use Rattle.std.specs.Prelude.{◌≡◌, ◌<◌, ◌%◌, ◌/◌, IfOk, map, pos};
ghost use Rattle.std.specs.List.{range_with_len};
ghost use Rattle.mb_desk.specs.GenerateCommand.{square_matrix, square_measure};
ghost use Rattle.mb_desk.specs.loops.SquareEntries.{square_entry};
ghost use Rattle.mb_matrix.specs.Measure.{IsMeasureOf};

use mb_matrix::{Matrix, Measure, Scale};
use std::alloc::{AllocError, Global};

/// The rows and columns of a table.
const SIDE: u32 = 4;

/// The entry of a margin at a cell: 1 where the cell is in the row, or the column, of that total.
fn entry(margin: u32, cell: u32) -> i32
    requires { margin < 8 }
    ensures { result ≡ pos (square_entry margin cell) }
{
    let counts = if margin < SIDE {
        cell / SIDE == margin
    } else {
        cell % SIDE == margin - SIDE
    };
    i32::from(counts)
}

/// The entries of the design matrix, margin by margin.
fn entries(alloc: Global) -> Result<Vec<i32>, AllocError>
    ensures { IfOk result (λ list. list.items
        ≡ map (λ place. pos (square_entry (place / 16) (place % 16))) (range_with_len 0 128)) }
{
    let mut entries = Vec::with_capacity(alloc, 128)?;
    for place in 0..128u32 {
        entries.push(entry(place / 16, place % 16))?;
    }
    Ok(entries)
}

/// The design matrix: the four row totals, and then the four column totals.
pub fn square_matrix(alloc: Global) -> Result<Matrix, AllocError>
    ensures { IfOk result (λ m. m ≡ square_matrix) }
{
    let entries = entries(alloc)?;
    match Matrix::try_new(alloc, 2 * SIDE, SIDE * SIDE, entries.as_slice()) {
        Ok(matrix) => Ok(matrix),
        Err(_) => Err(AllocError),
    }
}

/// The measure, on the design matrix: the row totals are fixed, and the base measure is 1.
pub fn square_measure(alloc: Global, matrix: &Matrix) -> Result<Measure, AllocError>
    requires { matrix.now ≡ square_matrix }
    ensures measure { IfOk result (λ m. m ≡ square_measure) }
    ensures sound { IfOk result (IsMeasureOf matrix.now) }
{
    let rows = vec![in alloc; 1u32, 2, 3, 4]?;
    match Measure::try_new(alloc, matrix, Scale::Rows(rows), &[1; 16]) {
        Ok(measure) => Ok(measure),
        Err(_) => Err(AllocError),
    }
}
