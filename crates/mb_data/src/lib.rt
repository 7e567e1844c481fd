//! Datasets: contingency tables with named factors and levels, as CSV text has them.
#![tactic(auto)]

mod cells;
mod combining;
mod count_field;
mod dataset;
mod entry;
mod fault;
mod fields;
mod filled;
mod filling;
mod gathered;
mod header;
pub mod laws;
mod levels;
mod reading;
mod record;
mod records;
mod rows;
mod writing;

pub use dataset::Dataset;
pub use entry::Entry;
pub use fault::DataFault;
pub use reading::read_dataset;
pub use writing::write_dataset;
