//! The tests of weights, reports and claims: what no contract says, as tables of cases.
//!
//! Expected values come from hand computation, from plain programs or from worked examples, never
//! from the program's own output.
#![tactic(auto)]

#[cfg(test)]
mod claims;
#[cfg(test)]
mod reports;
#[cfg(test)]
mod weight_cases;
#[cfg(test)]
mod weights;
