//! Texts of reports: rings of tables, and exact tests.
#![tactic(auto)]

mod analysis;
mod laws;
mod report_lines;
mod report_read;
mod report_written;
mod table_of_rings;

pub use analysis::Analysis;
pub use laws::{read_report_is_written, written_report_is_read};
pub use mb_text::RecordFault;
pub use report_read::read_report;
pub use report_written::report;
pub use table_of_rings::ring_table;
