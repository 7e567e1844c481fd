//! Certificates that a list of moves is a Markov basis: their parts and their text.
#![tactic(auto)]

mod basis_lines;
mod certificate;
mod fault;
mod item_number;
mod items;
mod laws;
mod line_fault;
mod line_parts;
mod line_writing;
mod lines;
mod matrix_lines;
mod part;
mod parts;
mod reading;
mod writing;

pub use certificate::Certificate;
pub use fault::ReadFault;
pub use laws::{no_fault, read_is_written, written_is_read};
pub use line_fault::{Fault, Reason};
pub use parts::{Join, Pair, Path, Start};
pub use reading::read;
pub use writing::{rule_table, write};
