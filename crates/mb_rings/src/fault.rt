//! Why a walk gives no rings.

use mb_tables::OutOfMemory;
use std::alloc::{AllocError, AllocFailed};

/// Why a walk gives no rings.
#[derive(Clone, Copy, Debug, PartialEq, Eq)]
pub enum WalkFault {
    /// More tables than the limit are reached. So many were seen: the limit and one more.
    TooLarge { seen: u32 },
    /// Out of memory.
    OutOfMemory,
}

impl From<OutOfMemory> for WalkFault {
    ghost use Rattle.std.specs.Prelude.{◌≡◌};
    ghost use Rattle.mb_rings.specs.declared.fault.WalkFault.TheVariants.{OutOfMemory};

    ghost from_gives = { λ _ e. e ≡ OutOfMemory };

    fn from(_e: OutOfMemory) -> WalkFault {
        WalkFault::OutOfMemory
    }
}

impl From<AllocError> for WalkFault {
    ghost use Rattle.std.specs.Prelude.{◌≡◌};
    ghost use Rattle.mb_rings.specs.declared.fault.WalkFault.TheVariants.{OutOfMemory};

    ghost from_gives = { λ _ e. e ≡ OutOfMemory };

    fn from(_e: AllocError) -> WalkFault {
        WalkFault::OutOfMemory
    }
}

impl<T: Drop> From<AllocFailed<T>> for WalkFault {
    ghost use Rattle.std.specs.Prelude.{◌≡◌};
    ghost use Rattle.mb_rings.specs.declared.fault.WalkFault.TheVariants.{OutOfMemory};

    ghost from_gives = { λ _ e. e ≡ OutOfMemory };

    fn from(_e: AllocFailed<T>) -> WalkFault {
        WalkFault::OutOfMemory
    }
}
