//! Why a text is no dataset.

use mb_tables::OutOfMemory;
use std::alloc::{AllocError, AllocFailed};

/// Why a text is no dataset: the first fault, of the header first, then record by record, then of
/// the whole. Records count from 1, and the header is record 1.
#[derive(Clone, Copy, Debug, PartialEq, Eq)]
pub enum DataFault {
    /// The record isn't there (the header of a text without records), isn't UTF-8, has another
    /// number of fields than the header, or is a header with a field that begins with a byte order
    /// mark.
    Csv { row: u64 },
    /// No field of the header is `count`.
    NoCountColumn,
    /// `count` is the only field of the header.
    NoFactor,
    /// The count field of the record is no count and no `*`.
    BadCount { row: u64 },
    /// An earlier record has the same levels; of record 1: two fields of the header are equal.
    Repeated { row: u64 },
    /// More than 64 combinations of levels are no structural zeros.
    TooManyCells,
    /// The counts add up to more than 1,000,000.
    TotalTooLarge,
    /// Each combination of levels is a structural zero, or there is none.
    NoCell,
    /// Out of memory.
    OutOfMemory,
}

impl From<OutOfMemory> for DataFault {
    ghost use Rattle.std.specs.Prelude.{◌≡◌};
    ghost use Rattle.mb_data.specs.declared.fault.DataFault.TheVariants as faults;

    ghost from_gives = { λ _ e. e ≡ faults.OutOfMemory };

    fn from(_e: OutOfMemory) -> DataFault {
        DataFault::OutOfMemory
    }
}

impl From<AllocError> for DataFault {
    ghost use Rattle.std.specs.Prelude.{◌≡◌};
    ghost use Rattle.mb_data.specs.declared.fault.DataFault.TheVariants as faults;

    ghost from_gives = { λ _ e. e ≡ faults.OutOfMemory };

    fn from(_e: AllocError) -> DataFault {
        DataFault::OutOfMemory
    }
}

impl<T: Drop> From<AllocFailed<T>> for DataFault {
    ghost use Rattle.std.specs.Prelude.{◌≡◌};
    ghost use Rattle.mb_data.specs.declared.fault.DataFault.TheVariants as faults;

    ghost from_gives = { λ _ e. e ≡ faults.OutOfMemory };

    fn from(_e: AllocFailed<T>) -> DataFault {
        DataFault::OutOfMemory
    }
}
