//! The rings of the fiber graph: ring k has the tables at distance k from a start. Their laws, and
//! the search of the tables one step away.
#![tactic(auto)]

mod expand;
mod fault;
mod laws;
mod next;
mod rings;
mod shares;
mod visited;

pub use expand::take_steps;
pub use fault::WalkFault;
pub use laws::{
    each_is_reached_once, least_path_is_one, markov_basis_reaches_fiber, reached_is_joined,
    rings_are_by_distance, rings_ascend,
};
pub use next::next_ring;
pub use rings::Rings;
pub use shares::{share_of, share_start};
pub use visited::Visited;
