//! Monomials in the symbols of margins and cells, the two orders of them, and their rewriting.
#![tactic(auto)]

mod columns;
mod exponents;
mod laws;
mod monomial;
mod order;
mod weight;

pub use columns::{column_of, unit_of, zeros_of};
pub use laws::{light_exponents, orders, steps, weight_by_parts};
pub use monomial::Monomial;
pub use order::Order;
pub use weight::MOST_WEIGHT;
