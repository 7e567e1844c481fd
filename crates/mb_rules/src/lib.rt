//! Rules of monomials, normal forms by them, and the laws that lead from critical pairs to joined
//! tables.
#![tactic(auto)]

pub mod laws;
mod rule;
mod rules;
mod trace;

pub use rule::Rule;
pub use rules::Rules;
pub use trace::Trace;
