//! Which margins a sampling scheme fixes.

/// A sampling scheme, by the margins that it fixes.
#[derive(Drop)]
pub enum Scale {
    /// The total alone: all cells are one multinomial sample.
    All,
    /// The margins of these rows, numbered from 1: the cells of each row are a sample of their own
    /// (product multinomial).
    Rows(Vec<u32>),
}
