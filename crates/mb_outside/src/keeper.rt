//! A keeper of records: a finite map from kind and name to a body.
ghost use Rattle.std.specs.Prelude.{◌≡◌, Option, ℕ};
ghost use Rattle.mb_outside.specs.Causes.{HasCause};
ghost use Rattle.mb_outside.specs.Rows.{Adds, AreApart, Finds, Lists, Replaces, Rows, TakesOut, has_failed};
ghost use Rattle.mb_outside.specs.Told.{GoesOn, WhereTold};
ghost use Rattle.mb_outside.specs.declared.keeper.KeepFault.TheVariants.{OutOfMemory};

use std::alloc::{AllocError, AllocFailed, Global};

/// Why a keeper refused a call.
#[derive(Clone, Copy, Debug, PartialEq, Eq)]
pub enum KeepFault {
    /// The keeper failed: its count of faults rose.
    Failed,
    /// No memory was left.
    OutOfMemory,
}

impl From<AllocError> for KeepFault {
    ghost from_gives = { λ _ fault. fault ≡ OutOfMemory };

    fn from(_: AllocError) -> KeepFault {
        KeepFault::OutOfMemory
    }
}

impl<T: Drop> From<AllocFailed<T>> for KeepFault {
    ghost from_gives = { λ _ fault. fault ≡ OutOfMemory };

    fn from(_: AllocFailed<T>) -> KeepFault {
        KeepFault::OutOfMemory
    }
}

/// A row of a keeper.
#[derive(Drop)]
pub struct Row {
    /// The number of its kind.
    pub kind: u8,
    /// Its name.
    pub name: String,
    /// Its body.
    pub body: Vec<u8>,
}

/// A store of bodies by kind and name, whose calls may fail. A keeper may tell its rows, and may
/// fall silent in any call; it never begins to tell. So each call says what became of the rows
/// where they are told at its return. After a refusal the rows are as they were. `Failed` comes
/// exactly where the count of faults rose.
pub trait Keeper {
    /// The bodies by kind and name, where the keeper tells them.
    ghost rows: { Self → Option Rows };

    /// That it tells its rows and goes on telling them, as a keeper in memory does.
    ghost lasts: { Self → Type 0 };

    /// How often the keeper has failed, up to the greatest u64: a call that answers `Failed` raises
    /// it by one, and no other call changes it.
    ghost faults: { Self → ℕ };

    /// The body of a row; None where the row isn't there, and nowhere else.
    fn get(&mut self, alloc: Global, kind: u8, name: &str) -> Result<Option<Vec<u8>>, KeepFault>
        ensures told { WhereTold (rows self.old) (rows self.new)
            (λ before after. Finds (kind, name.now) before after result) }
        ensures lasts { GoesOn (lasts self.old) (lasts self.new) (rows self.new) }
        ensures cause { HasCause (faults self.old) (faults self.new) (has_failed result) };

    /// Adds a row, where none has this kind and name, and answers None. A row that is there stays,
    /// and its body is the answer.
    fn put(
        &mut self,
        alloc: Global,
        kind: u8,
        name: &str,
        body: &[u8],
    ) -> Result<Option<Vec<u8>>, KeepFault>
        ensures told { WhereTold (rows self.old) (rows self.new)
            (λ before after. Adds (kind, name.now) body.now before after result) }
        ensures lasts { GoesOn (lasts self.old) (lasts self.new) (rows self.new) }
        ensures cause { HasCause (faults self.old) (faults self.new) (has_failed result) };

    /// Takes a row out, or answers false exactly where there was none.
    fn remove(&mut self, kind: u8, name: &str) -> Result<bool, KeepFault>
        ensures told { WhereTold (rows self.old) (rows self.new)
            (λ before after. TakesOut (kind, name.now) before after result) }
        ensures lasts { GoesOn (lasts self.old) (lasts self.new) (rows self.new) }
        ensures cause { HasCause (faults self.old) (faults self.new) (has_failed result) };

    /// All names of a kind, in ascending order of bytes.
    fn names(&mut self, alloc: Global, kind: u8) -> Result<Vec<String>, KeepFault>
        ensures told { WhereTold (rows self.old) (rows self.new)
            (λ before after. Lists kind before after result) }
        ensures lasts { GoesOn (lasts self.old) (lasts self.new) (rows self.new) }
        ensures cause { HasCause (faults self.old) (faults self.new) (has_failed result) };

    /// Makes the map exactly these rows, of which no two share kind and name.
    fn replace_all(&mut self, all: &[Row]) -> Result<(), KeepFault>
        requires { AreApart all.now }
        ensures told { WhereTold (rows self.old) (rows self.new)
            (λ before after. Replaces all.now before after result) }
        ensures lasts { GoesOn (lasts self.old) (lasts self.new) (rows self.new) }
        ensures cause { HasCause (faults self.old) (faults self.new) (has_failed result) };
}
