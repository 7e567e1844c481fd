//! Why a completion run gives no rules.

use mb_tables::OutOfMemory;
use std::alloc::AllocError;

/// Why a completion run gives no rules. Pairs are numbers of rules, from 0 in order of birth, the
/// lower first. Where both causes hold at one pair, the looks are used up.
#[derive(Clone, Copy, Debug, PartialEq, Eq)]
pub enum CompleteFault {
    /// So many looks, all that were allowed, are done, and this pair comes next.
    Unfinished { looked: u32, left: (u32, u32) },
    /// The peak of this pair, which comes next, weighs more than 65,535 on some margin.
    Exponent { pair: (u32, u32) },
    /// Out of memory.
    OutOfMemory,
}

impl From<OutOfMemory> for CompleteFault {
    ghost use Rattle.std.specs.Prelude.{◌≡◌};
    ghost use Rattle.mb_completion.specs.declared.fault.CompleteFault.TheVariants as fault;

    ghost from_gives = { λ _ e. e ≡ fault.OutOfMemory };

    fn from(_e: OutOfMemory) -> CompleteFault {
        CompleteFault::OutOfMemory
    }
}

impl From<AllocError> for CompleteFault {
    ghost use Rattle.std.specs.Prelude.{◌≡◌};
    ghost use Rattle.mb_completion.specs.declared.fault.CompleteFault.TheVariants as fault;

    ghost from_gives = { λ _ e. e ≡ fault.OutOfMemory };

    fn from(_e: AllocError) -> CompleteFault {
        CompleteFault::OutOfMemory
    }
}
