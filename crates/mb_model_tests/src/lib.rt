//! The tests of datasets, models and completions: what no contract says, as tables of cases.
//!
//! Expected values come from hand computation, from plain programs or from worked examples, never
//! from the program's own output.
#![tactic(auto)]

#[cfg(test)]
mod certificates;
#[cfg(test)]
mod certificates_made;
#[cfg(test)]
mod checker;
#[cfg(test)]
mod completion_cases;
#[cfg(test)]
mod completions;
#[cfg(test)]
mod dataset_cases;
#[cfg(test)]
mod dataset_faults;
#[cfg(test)]
mod datasets;
#[cfg(test)]
mod kind_faults;
#[cfg(test)]
mod kinds;
#[cfg(test)]
mod measures;
#[cfg(test)]
mod model_records;
#[cfg(test)]
mod random_datasets;
