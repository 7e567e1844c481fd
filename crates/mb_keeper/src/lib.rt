//! Keepers of records over a database: one table, whose rows are a kind, a name and a body. One is
//! over any store of `sqlite`, one over a database file at a path.
#![tactic(auto)]

mod file_keeper;
mod sql_keeper;
mod table;

pub use file_keeper::FileKeeper;
pub use sql_keeper::SqlKeeper;
