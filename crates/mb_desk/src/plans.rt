//! What a command is going to do, and why one stops.
ghost use Rattle.std.specs.Prelude.{◌≡◌};
ghost use Rattle.mb_desk.specs.declared.plans.Stop.TheVariants.{Memory};

use crate::refusals::Refusal;
use crate::texts::Word;
use mb_registry::{Body, Kind};
use mb_tables::OutOfMemory;
use std::alloc::{AllocError, AllocFailed};

/// The one change of a command.
#[derive(Drop)]
pub enum Change<'a> {
    /// Nothing is stored.
    Nothing,
    /// A row is added.
    Adds {
        kind: Kind,
        name: Word<'a>,
        body: Body,
    },
    /// A row is taken out.
    Removes {
        kind: Kind,
        name: Word<'a>,
    },
    /// A file is written.
    Writes {
        file: Word<'a>,
        body: Body,
    },
}

/// What a command answers, made whole before anything is stored, and the one change that it makes.
#[derive(Drop)]
pub struct Plan<'a> {
    /// The bytes to be put.
    pub answer: Body,
    /// The change, which is made before they are put.
    pub change: Change<'a>,
}

/// Why the work stops: two causes that nothing decides, or a refusal that is decided.
#[derive(Drop)]
pub enum Stop {
    /// Out of memory.
    Memory,
    /// The files or the keeper failed.
    Outside,
    /// The request is refused.
    Refused(Refusal),
}

impl From<AllocError> for Stop {
    ghost from_gives = { λ _ stop. stop ≡ Memory };

    fn from(_: AllocError) -> Stop {
        Stop::Memory
    }
}

impl<T: Drop> From<AllocFailed<T>> for Stop {
    ghost from_gives = { λ _ stop. stop ≡ Memory };

    fn from(_: AllocFailed<T>) -> Stop {
        Stop::Memory
    }
}

impl From<OutOfMemory> for Stop {
    ghost from_gives = { λ _ stop. stop ≡ Memory };

    fn from(_: OutOfMemory) -> Stop {
        Stop::Memory
    }
}
