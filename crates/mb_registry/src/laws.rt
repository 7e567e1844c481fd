//! The laws of the registry, each the contract of a function that does nothing.
ghost use Rattle.mb_registry.specs.Laws.{BodyIsItsRecord, OrderlyIsNotBad, RepeatsAreUnchanged, StepsKeepOrder};

/// Law: a body of a kind is read as a record exactly where it is the body of this record.
pub fn body_is_its_record()
    ensures { BodyIsItsRecord }
{}

/// Law: orderly rows are orderly after every list of accepted steps.
pub fn steps_keep_order()
    ensures { StepsKeepOrder }
{}

/// Law: over orderly rows no call meets a bad record.
pub fn orderly_is_not_bad()
    ensures { OrderlyIsNotBad }
{}

/// Law: a record that was accepted may be added again, which answers `Unchanged` and changes
/// nothing.
pub fn repeats_are_unchanged()
    ensures { RepeatsAreUnchanged }
{}
