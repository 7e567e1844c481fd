//! A rule.

use mb_order::Monomial;

/// A rule of monomials: an oriented binomial of the toric ideal. Its left side goes to its right
/// side, which has the same weight on each margin and is smaller.
#[derive(Drop)]
pub struct Rule {
    /// The leading monomial, which the rule replaces.
    pub left: Monomial,
    /// What the rule puts in its place.
    pub right: Monomial,
}
