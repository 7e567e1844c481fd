//! Why moves beside a certificate give no new one.

use mb_tables::{OutOfMemory, Table};
use std::alloc::{AllocError, AllocFailed};

/// Why moves beside a certificate give no new one.
#[derive(Drop)]
pub enum BesideFault {
    /// The moves haven't the matrix's number of cells.
    WidthDiffers,
    /// Some margin of the move in this row, the first such one, isn't 0. Rows count from 1.
    NotAMove {
        row: u32,
    },
    /// The moves are no Markov basis: the tables of the two sides of this rule have equal margins,
    /// and no chain of the moves joins them. Rules count from 0.
    NotBasis {
        rule: u32,
        left: Table,
        right: Table,
    },
    /// So many tables were seen, the limit and one more, before the moves led from the left side of
    /// this rule to its right side. Rules count from 0.
    TooLarge {
        rule: u32,
        seen: u32,
    },
    /// Out of memory.
    OutOfMemory,
}

impl From<OutOfMemory> for BesideFault {
    ghost use Rattle.std.specs.Prelude.{◌≡◌};
    ghost use Rattle.mb_paths.specs.declared.beside_fault.BesideFault.TheVariants.{OutOfMemory};

    ghost from_gives = { λ _ e. e ≡ OutOfMemory };

    fn from(_e: OutOfMemory) -> BesideFault {
        BesideFault::OutOfMemory
    }
}

impl From<AllocError> for BesideFault {
    ghost use Rattle.std.specs.Prelude.{◌≡◌};
    ghost use Rattle.mb_paths.specs.declared.beside_fault.BesideFault.TheVariants.{OutOfMemory};

    ghost from_gives = { λ _ e. e ≡ OutOfMemory };

    fn from(_e: AllocError) -> BesideFault {
        BesideFault::OutOfMemory
    }
}

impl<T: Drop> From<AllocFailed<T>> for BesideFault {
    ghost use Rattle.std.specs.Prelude.{◌≡◌};
    ghost use Rattle.mb_paths.specs.declared.beside_fault.BesideFault.TheVariants.{OutOfMemory};

    ghost from_gives = { λ _ e. e ≡ OutOfMemory };

    fn from(_e: AllocFailed<T>) -> BesideFault {
        BesideFault::OutOfMemory
    }
}
