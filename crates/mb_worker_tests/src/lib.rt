//! The tests of the walk by several workers: what no contract says, above all that calls do their
//! work where there is memory, and that workers run at once.
//!
//! Expected values come from hand computation, from plain programs or from worked examples, never
//! from the program's own output.
#![tactic(auto)]

#[cfg(test)]
mod fibers;
#[cfg(test)]
mod keyed;
#[cfg(test)]
mod meeting;
#[cfg(test)]
mod models;
#[cfg(test)]
mod numbers;
