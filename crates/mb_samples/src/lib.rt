//! Samples of tests: matrices, certificates, tables and keys of texts: a library of the tests of
//! the commands, of exact tests and of the walk by several workers.
#![tactic(auto)]

mod keys;
mod samples;

pub use keys::keys_for;
pub use samples::{
    FOUR_BY_FOUR, are_moves, certificate_of, counts_of, has_small_margins, matrix_of, table_of,
};
