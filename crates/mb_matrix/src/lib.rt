//! Design matrices, the margins that they give to tables and moves, the fiber of a table, and keys
//! of its tables.
#![tactic(auto)]

mod digit;
mod entries;
mod fault;
mod key_laws;
mod keys;
mod laws;
mod listing;
mod margins;
mod matrix;
mod measure;
mod measure_fault;
mod measure_laws;
mod peel;
mod reading;
mod scale;
mod scale_tests;
mod test;

pub use digit::Digit;
pub use entries::{LARGEST_ENTRY, are_design_entries};
pub use fault::MatrixFault;
pub use key_laws::{
    free_cells_determine, keys_are_bounded, keys_are_distinct, peel_is_triangular, ranks_ascend,
    tables_suit_keys,
};
pub use keys::{Keys, moved_key};
pub use laws::{
    counts_are_bounded, fiber_ascends, fiber_has_exactly, fiber_of_table, joined_keep_margins,
    margins_are_bounded, margins_by_row, moves_keep_margins,
};
pub use listing::plain_fiber;
pub use matrix::Matrix;
pub use measure::Measure;
pub use measure_fault::MeasureFault;
pub use measure_laws::groups_part_the_cells;
pub use peel::{Peel, Peeled};
pub use scale::Scale;
pub use scale_tests::scale_fault;
