//! Shared claim words: a set of 64-bit keys that several threads fill at once without a lock.
//!
//! Insert-if-absent into fixed-size open-addressing hash tables (the shards) with linear probing,
//! whose words change by compare-and-exchange alone. What each thread knows is a view of its own
//! (a pass); gathering joins the views into the root's.
#![tactic(auto)]

mod claim;
mod grow;
mod laws;
mod old_words;
mod rule;
mod seats;
mod shards;
mod sizes;
mod views;

pub use claim::{Claim, USUAL_SHARDS};
pub use laws::{a_key_is_won_once, a_won_key_is_new, each_run_keeps_the_rule, gathered_is_stored};
pub use seats::{Pass, Root};
pub use shards::{MOST_WORDS, Shards};
pub use views::{Note, PassView, RootView};
