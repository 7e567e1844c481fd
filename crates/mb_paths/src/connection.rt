//! How two tables of equal margins lie to each other.

/// How two tables of equal margins lie to each other in the fiber graph of some moves.
#[derive(Drop)]
pub enum Between {
    /// A chain of moves joins them, and these signed numbers are the least path from the first to
    /// the second. Moves are numbered from 1; a number above 0 adds that move, one below 0
    /// subtracts it. There is none where the tables are equal.
    Joined { steps: Vec<i64> },
    /// No chain of moves joins them.
    Apart,
}
