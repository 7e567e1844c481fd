//! The tests of the commands and of the crates that they stand on: what no contract says, as
//! tables of cases.
//!
//! Expected values come from hand computation, from 4ti2, from a plain program or from worked
//! examples, never from the program's own output.
#![tactic(auto)]

#[cfg(test)]
mod check_command;
#[cfg(test)]
mod fibers;
#[cfg(test)]
mod gates;
#[cfg(test)]
mod generate_command;
#[cfg(test)]
mod lines;
#[cfg(test)]
mod matrices;
#[cfg(test)]
mod moves_command;
#[cfg(test)]
mod outside;
#[cfg(test)]
mod reach_command;
#[cfg(test)]
mod run;
#[cfg(test)]
mod tables;
#[cfg(test)]
mod texts;
#[cfg(test)]
mod walks;
