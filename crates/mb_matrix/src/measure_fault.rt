//! Why a scale and base numbers are no measure.

use std::alloc::AllocError;

/// Why a scale and base numbers are no measure on a design matrix. Rows count from 1 as in the
/// scale, and cells from 0.
#[derive(Clone, Copy, Debug, PartialEq, Eq)]
pub enum MeasureFault {
    /// The scale's first number that names no row, or a row that counts a cell more than once.
    BadScaleRow { row: u32 },
    /// The first cell that no named row covers, or that two do; or, for the scale of all cells, the
    /// first whose column adds up to another sum than that of cell 0.
    ScaleNotCover { cell: u32 },
    /// The base of this cell, the lowest such one, is 0.
    BadBase { cell: u32 },
    /// Out of memory.
    OutOfMemory,
}

impl From<AllocError> for MeasureFault {
    ghost use Rattle.std.specs.Prelude.{◌≡◌};
    ghost use Rattle.mb_matrix.specs.declared.measure_fault.MeasureFault.TheVariants.{OutOfMemory};

    ghost from_gives = { λ _ e. e ≡ OutOfMemory };

    fn from(_e: AllocError) -> MeasureFault {
        MeasureFault::OutOfMemory
    }
}
