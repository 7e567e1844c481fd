//! The digits of keys.

/// A free cell and its bound: the tables of the fiber count there from 0 to the bound. Cells count
/// from 0.
#[derive(Clone, Copy, Debug, PartialEq, Eq)]
pub struct Digit {
    pub cell: u32,
    pub bound: u64,
}
