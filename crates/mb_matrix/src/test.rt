//! The tests of an entry of a design matrix.

/// A test that each entry of a design matrix passes.
#[derive(Clone, Copy)]
pub enum Test {
    /// The entry is not below 0.
    Unsigned,
    /// The entry is at most 1,000.
    Small,
}
