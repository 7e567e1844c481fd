//! Why a call of the registry is refused.
ghost use Rattle.std.specs.Prelude.{◌≡◌};
ghost use Rattle.mb_registry.specs.Faults.{keeper_fault};
ghost use Rattle.mb_registry.specs.declared.fault.RegistryFault.TheVariants.{OutOfMemory};

use crate::kinds::Kind;
use crate::texts::{Body, Text};
use mb_outside::KeepFault;
use mb_tables::OutOfMemory as NoMemory;
use std::alloc::{AllocError, AllocFailed};

/// Why a call of the registry is refused. The rows are then as they were.
#[derive(Drop)]
pub enum RegistryFault {
    /// There is no record of this kind and name: the one that is asked for, or the one that a new
    /// record refers to.
    Unknown { kind: Kind, name: Text },
    /// The record of this name refers to the one that is to be removed. No record that refers to it
    /// has a lower name.
    InUse { by: Text },
    /// Another body is kept under this kind and name.
    Conflict { kept: Body },
    /// The row of this kind and name, the first that the call tests and can't take, has a name that
    /// is none or a body that is no record of its kind.
    BadRecord { kind: Kind, name: Text },
    /// The keeper failed.
    Keeper,
    /// Out of memory.
    OutOfMemory,
}

impl From<KeepFault> for RegistryFault {
    ghost from_gives = { λ fault answer. answer ≡ keeper_fault fault };

    fn from(fault: KeepFault) -> RegistryFault {
        match fault {
            KeepFault::Failed => RegistryFault::Keeper,
            KeepFault::OutOfMemory => RegistryFault::OutOfMemory,
        }
    }
}

impl From<AllocError> for RegistryFault {
    ghost from_gives = { λ _ fault. fault ≡ OutOfMemory };

    fn from(_: AllocError) -> RegistryFault {
        RegistryFault::OutOfMemory
    }
}

impl<T: Drop> From<AllocFailed<T>> for RegistryFault {
    ghost from_gives = { λ _ fault. fault ≡ OutOfMemory };

    fn from(_: AllocFailed<T>) -> RegistryFault {
        RegistryFault::OutOfMemory
    }
}

impl From<NoMemory> for RegistryFault {
    ghost from_gives = { λ _ fault. fault ≡ OutOfMemory };

    fn from(_: NoMemory) -> RegistryFault {
        RegistryFault::OutOfMemory
    }
}
