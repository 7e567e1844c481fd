//! Keys with the ranks of their tables.

/// A key, and the rank of its table. Ranks order keys and place them in caches; no clause speaks of
/// them, so a wrong one would cost time and nothing else.
#[derive(Clone, Copy)]
pub struct Ranked {
    /// The key.
    pub key: u64,
    /// The rank of the table with this key.
    pub rank: u64,
}
