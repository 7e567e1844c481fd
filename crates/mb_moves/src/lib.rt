//! The 4ti2 text of matrices, moves and tables: read with the place of the first fault, and
//! written.
#![tactic(auto)]

mod design;
mod entries;
mod fault;
mod grid;
mod kernel;
mod laws;
mod numbers;
mod reading;
mod table_text;
mod testing;
mod writing;

pub use design::{push_rows, write_design};
pub use fault::GridFault;
pub use grid::Grid;
pub use kernel::first_not_move;
pub use laws::{
    accepted_exactly, refused_exactly, written_is_read, written_matrix_is_read,
    written_moves_are_read,
};
pub use reading::{read_matrix, read_moves};
pub use table_text::{NoTable, table_of_file};
pub use testing::{Tested, test_moves};
pub use writing::{write_matrix, write_moves};
