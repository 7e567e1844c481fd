//! The laws of steps and of joined tables, each the contract of a function that does nothing.

ghost use Rattle.mb_tables.specs.Laws.{JoinedAdded, JoiningIsAnEquivalence, StepsAreDecided};

/// Law: each test of a step, into a truth value, decides what it tests.
pub fn steps_are_decided()
    ensures { StepsAreDecided }
{}

/// Law: each table is joined to itself, and joining goes back and on.
pub fn joining_is_an_equivalence()
    ensures { JoiningIsAnEquivalence }
{}

/// Law: joined tables stay joined when a table is added to both.
pub fn joined_added()
    ensures { JoinedAdded }
{}
