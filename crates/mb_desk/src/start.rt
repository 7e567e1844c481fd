//! What a walk begins with: the design matrix of an array, and the table of a table file.
ghost use Rattle.std.specs.Prelude.{◌≡◌, ◌≤◌, IfOk, false, length, sum};
ghost use Rattle.mb_desk.specs.Decision.{Follows, blames};
ghost use Rattle.mb_desk.specs.ReachCommand.{designed, matrix_stop, table_of};
ghost use Rattle.mb_matrix.specs.Matrix.{IsDesign, design_of};
ghost use Rattle.mb_tables.specs.Limits.{largest_total};

use crate::plans::Stop;
use crate::refusals::Refusal;
use mb_matrix::{Matrix, MatrixFault};
use mb_moves::{Grid, NoTable, table_of_file};
use mb_tables::{Moves, Table};
use std::alloc::Global;

/// Why the work stops for the fault of a matrix.
pub fn matrix_stop(fault: MatrixFault) -> Stop
    ensures { result ≡ matrix_stop fault }
{
    match fault {
        MatrixFault::OutOfMemory => Stop::Memory,
        MatrixFault::TooManyCells => Stop::Refused(Refusal::TooManyCells),
        MatrixFault::TooManyMargins => Stop::Refused(Refusal::TooManyMargins),
        MatrixFault::Negative { row, cell } => Stop::Refused(Refusal::Negative { row, cell }),
        MatrixFault::EntryTooLarge { row, cell } => {
            Stop::Refused(Refusal::EntryTooLarge { row, cell })
        }
        MatrixFault::ZeroColumn { cell } => Stop::Refused(Refusal::ZeroColumn { cell }),
    }
}

/// The design matrix of the array of a file, or the refusal of its first fault.
pub fn design_matrix(alloc: Global, grid: &Grid) -> Result<Matrix, Stop>
    ensures design { Follows result (designed grid.now) }
    ensures made { IfOk result (λ matrix. matrix ≡ design_of grid.now) }
    ensures sound { IfOk result IsDesign }
    ensures own { blames result ≡ false }
{
    match Matrix::try_new(alloc, grid.row_count(), grid.width(), grid.as_slice()) {
        Ok(matrix) => Ok(matrix),
        Err(fault) => Err(matrix_stop(fault)),
    }
}

/// The table of a table file, over so many cells: it has one row of that width, of counts that add
/// up to at most 1,000,000.
pub fn start_table(alloc: Global, file: &Moves, cells: u32) -> Result<Table, Stop>
    ensures table { Follows result (table_of cells file.now) }
    ensures cells { IfOk result (λ table. length table ≡ cells) }
    ensures total { IfOk result (λ table. sum table ≤ largest_total) }
    ensures own { blames result ≡ false }
{
    match table_of_file(alloc, file, cells) {
        Ok(table) => Ok(table),
        Err(NoTable::NotATable) => Err(Stop::Refused(Refusal::NotATable { file: 3 })),
        Err(NoTable::OutOfMemory) => Err(Stop::Memory),
    }
}
