//! The tests of what the commands of records refuse and of what they leave then, as sessions at the
//! desk.
//!
//! Expected values are worked examples and by hand.
#![tactic(auto)]

#[cfg(test)]
mod failing_calls;
#[cfg(test)]
mod request_sessions;
#[cfg(test)]
mod strange_rows;
