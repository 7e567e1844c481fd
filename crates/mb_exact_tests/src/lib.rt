//! The tests of exact tests, of given moves and of keys: what no contract says, as tables of cases.
//!
//! Expected values come from hand computation, from plain programs or from worked examples, never
//! from the program's own output.
#![tactic(auto)]

#[cfg(test)]
mod beside_bases;
#[cfg(test)]
mod between_paths;
#[cfg(test)]
mod fiber_cases;
#[cfg(test)]
mod fibers;
#[cfg(test)]
mod given_moves;
#[cfg(test)]
mod keys;
#[cfg(test)]
mod models;
#[cfg(test)]
mod numbers;
#[cfg(test)]
mod paths;
