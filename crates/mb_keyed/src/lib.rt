//! The walk by keys: several workers claim the keys of the tables one step from a ring in shared
//! words, and read the next ring back from them.
#![tactic(auto)]

mod cache;
mod claimed_ring;
mod gathered;
mod key_totals;
mod keyed_fiber;
mod keyed_graph;
mod keyed_ring;
mod keyed_walk;
mod near_keys;
mod needs;
mod opened;
mod ranked;
mod ring_tables;
mod rounds;
mod shard_words;
mod shares;
mod step_list;
mod worker;

pub use key_totals::key_total;
pub use keyed_walk::walk_on;
pub use shard_words::words_for;
