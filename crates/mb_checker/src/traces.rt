//! Traces: rule numbers, replayed in place on a monomial.

ghost use Rattle.std.specs.Bool.{OnFalse, OnTrue};
ghost use Rattle.std.specs.Prelude.{◌≡◌, None, Some};
ghost use Rattle.mb_certificate.specs.FirstFault.{ends_fault, replay, rewritten};
ghost use Rattle.mb_certificate.specs.Valid.{AreRules};
ghost use Rattle.mb_order.specs.Weight.{IsLight, Suits};

use crate::rules::rule_at;
use mb_certificate::{Certificate, Reason};
use mb_order::Monomial;

/// Rewrites a monomial by the rule of a number, where there is one and its left side divides.
pub fn step(certificate: &Certificate, k: u32, m: &mut Monomial) -> bool
    requires valid { AreRules certificate.now.matrix certificate.now.order certificate.now.rules }
    requires shape { Suits certificate.now.matrix m.old }
    requires light { IsLight certificate.now.matrix m.old.list }
    ensures made { OnTrue result (rewritten certificate.now.rules k m.old.list ≡ Some m.new.list) }
    ensures none { OnFalse result (rewritten certificate.now.rules k m.old.list ≡ None) }
    ensures shape { Suits certificate.now.matrix m.new }
    ensures light { IsLight certificate.now.matrix m.new.list }
{
    match rule_at(certificate, k) {
        Some(rule) => m.rewrite(&rule.left, &rule.right),
        None => false,
    }
}

/// Rewrites a monomial by the rules with these numbers, one after the other, as long as they fit.
fn replay(certificate: &Certificate, trace: &[u32], m: &mut Monomial) -> bool
    requires valid { AreRules certificate.now.matrix certificate.now.order certificate.now.rules }
    requires shape { Suits certificate.now.matrix m.old }
    requires light { IsLight certificate.now.matrix m.old.list }
    ensures made { OnTrue result
        (replay certificate.now.rules trace.now m.old.list ≡ Some m.new.list) }
    ensures none { OnFalse result (replay certificate.now.rules trace.now m.old.list ≡ None) }
    ensures shape { Suits certificate.now.matrix m.new }
{
    for k in trace {
        if !step(certificate, *k, m) {
            return false;
        }
    }
    true
}

/// What is wrong with two traces that are to lead two monomials to one.
pub fn ends_fault(
    certificate: &Certificate,
    first: &[u32],
    a: &mut Monomial,
    second: &[u32],
    b: &mut Monomial,
    differ: Reason,
) -> Option<Reason>
    requires valid { AreRules certificate.now.matrix certificate.now.order certificate.now.rules }
    requires a_shape { Suits certificate.now.matrix a.old }
    requires a_light { IsLight certificate.now.matrix a.old.list }
    requires b_shape { Suits certificate.now.matrix b.old }
    requires b_light { IsLight certificate.now.matrix b.old.list }
    ensures fault { result ≡ ends_fault differ
        (replay certificate.now.rules first.now a.old.list)
        (replay certificate.now.rules second.now b.old.list) }
    ensures a_shape { Suits certificate.now.matrix a.new }
    ensures b_shape { Suits certificate.now.matrix b.new }
{
    if !replay(certificate, first, a) {
        return Some(Reason::StepNotApplicable);
    }
    if !replay(certificate, second, b) {
        return Some(Reason::StepNotApplicable);
    }
    if a.is_same(b) { None } else { Some(differ) }
}
