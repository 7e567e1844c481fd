//! The breadth-first walk of the fiber graph: the tables that moves reach from a start, ring by
//! ring, by one worker or several, by keys or by tables.
#![tactic(auto)]

mod breadth_first;
mod deal_ring;
mod dealer;
mod dealt_steps;
mod merge;
mod owned_walk;
mod owner;
mod piles;
mod walks;

pub use walks::walk;
