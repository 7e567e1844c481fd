//! The parts of a certificate.

use mb_order::Monomial;
use std::marker::Model;

/// A rule of monomials. Its left side goes to its right side.
#[derive(Drop)]
pub struct Pair {
    /// The monomial that the rule replaces.
    pub left: Monomial,
    /// What the rule puts in its place.
    pub right: Monomial,
}

/// The start at a cell: rule numbers, from 0, that lead the monomial of the cell's column and the
/// symbol of the cell to one monomial. Seen as the two lists.
#[derive(Drop)]
pub struct Start {
    /// The rules that lead the monomial of the cell's column.
    pub margin_steps: Vec<u32>,
    /// The rules that lead the symbol of the cell.
    pub cell_steps: Vec<u32>,
}

impl Model for Start {
    ghost use Rattle.mb_certificate.specs.Certificate as parts;

    ghost Value = { parts.Start };

    ghost view = { λ s.
        record { margin_steps = s.margin_steps.items; cell_steps = s.cell_steps.items } };
}

/// The join of a pair of rules: rule numbers, from 0, that lead what the two make of their peak to
/// one monomial. Seen as the two numbers and the two lists.
#[derive(Drop)]
pub struct Join {
    /// The number of the rule that comes first in the list.
    pub low: u32,
    /// The number of the other rule.
    pub high: u32,
    /// The rules that lead what rule `low` makes of the peak.
    pub low_steps: Vec<u32>,
    /// The rules that lead what rule `high` makes of the peak.
    pub high_steps: Vec<u32>,
}

impl Model for Join {
    ghost use Rattle.mb_certificate.specs.Certificate as parts;

    ghost Value = { parts.Join };

    ghost view = { λ j.
        record {
          low = j.low;
          high = j.high;
          low_steps = j.low_steps.items;
          high_steps = j.high_steps.items;
        } };
}

/// The path of a rule: the moves that lead the table of its left side to that of its right side.
/// Seen as the number of the rule and the list of the moves.
#[derive(Drop)]
pub struct Path {
    /// The number of the rule, from 0.
    pub rule: u32,
    /// The numbers of the moves, from 1: above 0 where the move is added, below 0 where it is
    /// subtracted.
    pub steps: Vec<i64>,
}

impl Model for Path {
    ghost use Rattle.mb_certificate.specs.Certificate as parts;

    ghost Value = { parts.Path };

    ghost view = { λ p. record { rule = p.rule; steps = p.steps.items } };
}
