//! Exact weights of contingency tables within 128 bits, their sums, and the exact p-value as a
//! fraction and in decimals.
#![tactic(auto)]

mod adding;
mod binomial;
mod laws;
mod long_division;
mod p_value;
mod pascal;
mod shared_sums;
mod sums;
mod table_sums;
mod totals;
mod weighing;

pub use adding::Sum;
pub use laws::{
    binomials_agree, multinomial_is_exact, own_group_has_no_part, same_tables_once,
    sums_ignore_order, weight_by_factorials, weights_are_positive,
};
pub use long_division::decimals;
pub use p_value::{Weighed, fraction, fraction_by};
pub use weighing::weight;
