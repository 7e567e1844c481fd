//! What a combination of levels has.

/// The entry of a combination of levels.
#[derive(Clone, Copy, Debug, PartialEq, Eq)]
pub enum Entry {
    /// The combination is a cell with this count, 0 to 1,000,000.
    Count(u32),
    /// The combination is impossible, and no cell: a structural zero.
    StructuralZero,
}
