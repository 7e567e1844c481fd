//! Contingency tables and moves: vectors of counts, integer vectors that keep margins, and the
//! steps that one makes in the other.
#![tactic(auto)]

mod laws;
mod memory;
mod moves;
mod one_move;
mod part;
mod sign;
mod steps;
mod table;

pub use laws::{joined_added, joining_is_an_equivalence, steps_are_decided};
pub use memory::OutOfMemory;
pub use moves::{MOST_MOVES, Moves};
pub use one_move::{MOST_CELLS, Move, MoveFault};
pub use sign::Sign;
pub use table::{LARGEST_TOTAL, Table, TableFault};
