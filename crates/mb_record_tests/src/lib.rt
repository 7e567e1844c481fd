//! The tests of the commands that keep records, as sessions at the desk.
//!
//! Expected values are worked examples, by hand or of a plain program.
#![tactic(auto)]

#[cfg(test)]
mod analysis_sessions;
#[cfg(test)]
mod basis_sessions;
#[cfg(test)]
mod dataset_sessions;
#[cfg(test)]
mod import_sessions;
