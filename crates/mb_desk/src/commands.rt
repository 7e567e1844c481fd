//! The commands, one a file: each makes its plan, and stores nothing.

pub mod analyse;
pub mod basis;
pub mod check;
pub mod dataset;
pub mod export;
pub mod generate;
pub mod import;
pub mod list;
pub mod model;
pub mod moves;
pub mod reach;
pub mod remove;
pub mod report;
