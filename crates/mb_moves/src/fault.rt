//! Why a text is no matrix and no list of moves.

use mb_tables::OutOfMemory;
use std::alloc::{AllocError, AllocFailed};

/// The first fault of a text from left to right, or want of memory. Tokens count from 1, the two
/// sizes included.
#[derive(Clone, Copy, Debug, PartialEq, Eq)]
pub enum GridFault {
    /// One of the two sizes lacks, or isn't a number within its limits.
    NoSize,
    /// The token of an entry is no number.
    BadNumber { token: u32 },
    /// An entry's size is above 2,147,483,647.
    TooWideNumber { token: u32 },
    /// The text ends after so many entries, where so many are wanted.
    TooFew { found: u32, wanted: u32 },
    /// The text goes on after the last of the entries; so many are wanted.
    TooMany { wanted: u32 },
    /// Out of memory.
    OutOfMemory,
}

impl From<AllocError> for GridFault {
    ghost use Rattle.std.specs.Prelude.{◌≡◌};
    ghost use Rattle.mb_moves.specs.declared.fault.GridFault.TheVariants.{OutOfMemory};

    ghost from_gives = { λ _ e. e ≡ OutOfMemory };

    fn from(_e: AllocError) -> GridFault {
        GridFault::OutOfMemory
    }
}

impl<T: Drop> From<AllocFailed<T>> for GridFault {
    ghost use Rattle.std.specs.Prelude.{◌≡◌};
    ghost use Rattle.mb_moves.specs.declared.fault.GridFault.TheVariants.{OutOfMemory};

    ghost from_gives = { λ _ e. e ≡ OutOfMemory };

    fn from(_e: AllocFailed<T>) -> GridFault {
        GridFault::OutOfMemory
    }
}

impl From<OutOfMemory> for GridFault {
    ghost use Rattle.std.specs.Prelude.{◌≡◌};
    ghost use Rattle.mb_moves.specs.declared.fault.GridFault.TheVariants.{OutOfMemory};

    ghost from_gives = { λ _ e. e ≡ OutOfMemory };

    fn from(_e: OutOfMemory) -> GridFault {
        GridFault::OutOfMemory
    }
}
