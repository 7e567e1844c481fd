//! The least path between two tables, and moves beside a certificate.
#![tactic(auto)]

mod beside_fault;
mod beside_moves;
mod between_tables;
mod connection;
mod copies;
mod given_paths;
mod tree;
mod way_back;

pub use beside_fault::BesideFault;
pub use beside_moves::beside;
pub use between_tables::between;
pub use connection::Between;
