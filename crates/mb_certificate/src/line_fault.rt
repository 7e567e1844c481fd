//! What can be wrong with a line of a certificate.

/// Why a line is wrong.
#[derive(Clone, Copy, Debug, PartialEq, Eq)]
pub enum Reason {
    /// A move has a margin that isn't 0.
    MoveMargins,
    /// The sides of a rule differ in some margin weight.
    WeightDiffers,
    /// The left side of a rule isn't the larger one.
    NotDown,
    /// The two traces of a start end in different monomials.
    StartNotJoined,
    /// The line isn't that of the next pair of rules whose left sides share a symbol.
    PairMissing,
    /// The least common multiple of two left sides weighs more than 65,535 on some margin.
    PeakTooHeavy,
    /// A number is that of no rule or move, or the rule's left side doesn't divide.
    StepNotApplicable,
    /// The two traces of a join end in different monomials.
    PairNotJoined,
    /// The line isn't that of the next margin-free rule.
    PathMissing,
    /// A count of a path passes below 0.
    PathBelowZero,
    /// A path ends elsewhere than at its rule's right side.
    PathEnd,
}

/// A wrong line of a certificate's text, counted from 1, and why.
#[derive(Clone, Copy, Debug, PartialEq, Eq)]
pub struct Fault {
    /// The number of the line.
    pub line: u64,
    /// What is wrong with it.
    pub reason: Reason,
}
