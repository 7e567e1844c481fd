//! The lines of rules.

ghost use Rattle.std.specs.Bool.{OnFalse, OnTrue};
ghost use Rattle.std.specs.Prelude.{◌≡◌, ◌<◌, ◌≤◌, ◌+◌, ◌^◌, IfNone, IfSome, None, OnOk, Some, length, slice_get};
ghost use Rattle.mb_certificate.specs.Certificate.{AreParts};
ghost use Rattle.mb_certificate.specs.FirstFault.{are_same, first_from, rule_fault, rule_lines};
ghost use Rattle.mb_certificate.specs.Sides.{PairSuits, sides};
ghost use Rattle.mb_certificate.specs.Valid.{AreRules};
ghost use Rattle.mb_checker.specs.Finds.{Finds};
ghost use Rattle.mb_order.specs.Weight.{Suits, weights};

use crate::stop::Stop;
use mb_certificate::{Certificate, Fault, Pair, Reason};
use mb_matrix::Matrix;
use mb_order::Monomial;
use std::cmp::Ordering;

/// The rule of a number, from 0.
pub fn rule<'a>(certificate: &'a Certificate, k: u32) -> &'a Pair
    requires { k < length certificate.now.rules }
    ensures rule { slice_get certificate.now.rules k ≡ Some (sides result.now) }
    ensures shape { PairSuits certificate.now.matrix result.now }
    ensures sound { AreParts certificate.now }
{
    &certificate.rules()[k as usize]
}

/// The rule of a number, from 0, where there is one.
pub fn rule_at<'a>(certificate: &'a Certificate, k: u32) -> Option<&'a Pair>
    ensures found { IfSome result (λ pair.
        slice_get certificate.now.rules k ≡ Some (sides pair.now)) }
    ensures shape { IfSome result (λ pair. PairSuits certificate.now.matrix pair.now) }
    ensures none { IfNone result (slice_get certificate.now.rules k ≡ None) }
    ensures sound { AreParts certificate.now }
{
    if (k as usize) < certificate.rules().len() {
        Some(rule(certificate, k))
    } else {
        None
    }
}

/// Whether two monomials weigh the same on each margin.
fn same_weights(matrix: &Matrix, a: &Monomial, b: &Monomial) -> bool
    requires first { Suits matrix.now a.now }
    requires second { Suits matrix.now b.now }
    ensures { result ≡ are_same (weights matrix.now a.now.list) (weights matrix.now b.now.list) }
{
    for row in 0..matrix.rows() {
        if a.weight(matrix, row) != b.weight(matrix, row) {
            return false;
        }
    }
    true
}

/// What is wrong with a rule.
fn rule_fault(certificate: &Certificate, rule: &Pair) -> Option<Reason>
    requires { PairSuits certificate.now.matrix rule.now }
    ensures { result
        ≡ rule_fault certificate.now.matrix certificate.now.order (sides rule.now) }
{
    if !same_weights(certificate.matrix(), &rule.left, &rule.right) {
        return Some(Reason::WeightDiffers);
    }
    match certificate.order().compare(&rule.left, &rule.right) {
        Ordering::Greater => None,
        _ => Some(Reason::NotDown),
    }
}

/// Stops at the first wrong rule. The first of them stands in this line.
pub fn check_rules(certificate: &Certificate, line: u64) -> Result<(), Stop>
    requires { line ≤ 2 ^ 60 }
    ensures finds { Finds result (first_from line (rule_lines certificate.now)) }
    ensures valid { OnOk result
        (AreRules certificate.now.matrix certificate.now.order certificate.now.rules) }
{
    for (k, rule) in certificate.rules().iter().enumerate() {
        if let Some(reason) = rule_fault(certificate, rule) {
            let line = line + k as u64;
            return Err(Stop::Wrong(Fault { line, reason }));
        }
    }
    Ok(())
}
