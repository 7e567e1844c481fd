//! Why a check goes no further.

use mb_certificate::Fault;
use mb_tables::OutOfMemory;

/// Why a check goes no further.
#[derive(Drop)]
pub enum Stop {
    /// A line is wrong.
    Wrong(Fault),
    /// No memory was to be had.
    OutOfMemory,
}

impl From<OutOfMemory> for Stop {
    ghost use Rattle.std.specs.Prelude.{◌≡◌};
    ghost use Rattle.mb_checker.specs.declared.stop.Stop.TheVariants.{OutOfMemory};

    ghost from_gives = { λ _ e. e ≡ OutOfMemory };

    fn from(_e: OutOfMemory) -> Stop {
        Stop::OutOfMemory
    }
}
