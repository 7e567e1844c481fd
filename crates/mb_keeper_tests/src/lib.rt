//! The tests of keepers over a database: in memory, over disks that fail, over real files.
//!
//! Expected values are those of a map from kind and name to a body.
#![tactic(auto)]

#[cfg(test)]
mod database_files;
#[cfg(test)]
mod failing_disks;
#[cfg(test)]
mod in_memory;
#[cfg(test)]
mod steps;
