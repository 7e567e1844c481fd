//! The lines of joins.

ghost use Rattle.std.specs.Prelude.{◌≡◌, ◌&&◌, ◌<◌, ◌≤◌, ◌+◌, ◌^◌, IfOk, None, OnErr, Some, length, nat_eq, slice_get};
ghost use Rattle.mb_certificate.specs.FirstFault.{first_from, join_lines, peak_fault};
ghost use Rattle.mb_certificate.specs.Valid.{AreRules};
ghost use Rattle.mb_checker.specs.Finds.{Finds};
ghost use Rattle.mb_checker.specs.loops.Joined.{AreMet};
ghost use Rattle.mb_order.specs.Peak.{left_of, peak, shared_pairs, sides_of};
ghost use Rattle.mb_order.specs.Weight.{Suits};
ghost use Rattle.mb_tables.specs.Vectors.{shares};

use crate::rules::rule;
use crate::stop::Stop;
use crate::traces::{ends_fault, step};
use mb_certificate::{Certificate, Fault, Join, Reason};
use mb_matrix::Matrix;
use mb_order::{Monomial, zeros_of};
use mb_tables::OutOfMemory;
use std::alloc::Global;

/// The monomial 1 of a matrix: no symbol occurs.
fn one_of(alloc: Global, matrix: &Matrix) -> Result<Monomial, OutOfMemory>
    ensures { IfOk result (Suits matrix.now) }
{
    let margins = zeros_of(alloc, matrix.rows() as usize)?;
    let cells = zeros_of(alloc, matrix.cols() as usize)?;
    Ok(Monomial::try_new(alloc, margins.as_slice(), cells.as_slice())?)
}

/// Puts the least common multiple of the left sides of two rules into a monomial.
fn put_peak(certificate: &Certificate, low: u32, high: u32, m: &mut Monomial)
    requires low { low < length certificate.now.rules }
    requires high { high < length certificate.now.rules }
    requires shape { Suits certificate.now.matrix m.old }
    ensures list { m.new.list
        ≡ peak (sides_of certificate.now.rules low) (sides_of certificate.now.rules high) }
    ensures shape { Suits certificate.now.matrix m.new }
{
    let low = rule(certificate, low);
    let high = rule(certificate, high);
    m.copy_from(&low.left);
    m.raise_to_lcm(&high.left);
}

/// What is wrong with the traces of a join. The two sides of its peak are made in `p` and `q`.
fn peak_fault(
    certificate: &Certificate,
    join: &Join,
    p: &mut Monomial,
    q: &mut Monomial,
) -> Option<Reason>
    requires low { join.now.low < length certificate.now.rules }
    requires high { join.now.high < length certificate.now.rules }
    requires valid { AreRules certificate.now.matrix certificate.now.order certificate.now.rules }
    requires p_shape { Suits certificate.now.matrix p.old }
    requires q_shape { Suits certificate.now.matrix q.old }
    ensures fault { result
        ≡ peak_fault certificate.now.matrix certificate.now.rules join.now
        (sides_of certificate.now.rules join.now.low)
        (sides_of certificate.now.rules join.now.high) }
    ensures p_shape { Suits certificate.now.matrix p.new }
    ensures q_shape { Suits certificate.now.matrix q.new }
{
    put_peak(certificate, join.low, join.high, p);
    if !p.is_light(certificate.matrix()) {
        return Some(Reason::PeakTooHeavy);
    }
    q.copy_from(p);
    step(certificate, join.low, p);
    step(certificate, join.high, q);
    ends_fault(
        certificate,
        join.low_steps.as_slice(),
        p,
        join.high_steps.as_slice(),
        q,
        Reason::PairNotJoined,
    )
}

/// Whether a join is of these two rules.
fn is_of(join: &Join, low: u32, high: u32) -> bool
    ensures { result ≡ (nat_eq low join.now.low && nat_eq high join.now.high) }
{
    low == join.low && high == join.high
}

/// What is wrong with the next line, which is to be that of the join of two rules.
fn pair_fault(
    certificate: &Certificate,
    low: u32,
    high: u32,
    next: usize,
    p: &mut Monomial,
    q: &mut Monomial,
) -> Option<Reason>
    requires low { low < high }
    requires high { high < length certificate.now.rules }
    requires next { next ≤ length certificate.now.joins }
    requires turn { slice_get (shared_pairs certificate.now.rules) next ≡ Some (low, high) }
    requires valid { AreRules certificate.now.matrix certificate.now.order certificate.now.rules }
    requires p_shape { Suits certificate.now.matrix p.old }
    requires q_shape { Suits certificate.now.matrix q.old }
    ensures line { slice_get (join_lines certificate.now) next ≡ Some result }
    ensures there { result ≡ None → next < length certificate.now.joins }
    ensures p_shape { Suits certificate.now.matrix p.new }
    ensures q_shape { Suits certificate.now.matrix q.new }
{
    let joins = certificate.joins();
    if next == joins.len() {
        return Some(Reason::PairMissing);
    }
    let join = &joins[next];
    if !is_of(join, low, high) {
        return Some(Reason::PairMissing);
    }
    peak_fault(certificate, join, p, q)
}

/// Whether the left sides of two rules share a symbol.
fn is_shared(certificate: &Certificate, low: u32, high: u32) -> bool
    requires low { low < length certificate.now.rules }
    requires high { high < length certificate.now.rules }
    ensures { result
        ≡ shares (left_of certificate.now.rules low) (left_of certificate.now.rules high) }
{
    let low = rule(certificate, low);
    let high = rule(certificate, high);
    low.left.shares(&high.left)
}

/// Passes two rules whose left sides share no symbol, or judges the next line, which is to be that
/// of their join. The answer is the number of lines judged since; the first of them stands in
/// `line`.
fn check_pair(
    certificate: &Certificate,
    low: u32,
    high: u32,
    next: usize,
    line: u64,
    p: &mut Monomial,
    q: &mut Monomial,
) -> Result<usize, Stop>
    requires low { low < high }
    requires high { high < length certificate.now.rules }
    requires line { line ≤ 2 ^ 60 }
    requires met { AreMet certificate.now low high next }
    requires valid { AreRules certificate.now.matrix certificate.now.order certificate.now.rules }
    requires p_shape { Suits certificate.now.matrix p.old }
    requires q_shape { Suits certificate.now.matrix q.old }
    ensures met { IfOk result (λ now. AreMet certificate.now (low + 1) high now) }
    ensures wrong { OnErr result (Finds result (first_from line (join_lines certificate.now))) }
    ensures p_shape { Suits certificate.now.matrix p.new }
    ensures q_shape { Suits certificate.now.matrix q.new }
{
    if !is_shared(certificate, low, high) {
        return Ok(next);
    }
    if let Some(reason) = pair_fault(certificate, low, high, next, p, q) {
        let line = line + next as u64;
        return Err(Stop::Wrong(Fault { line, reason }));
    }
    Ok(next + 1)
}

/// Judges the lines of the joins of a rule with those before it. The answer is as above.
fn check_row(
    certificate: &Certificate,
    high: u32,
    next: usize,
    line: u64,
    p: &mut Monomial,
    q: &mut Monomial,
) -> Result<usize, Stop>
    requires high { high < length certificate.now.rules }
    requires line { line ≤ 2 ^ 60 }
    requires met { AreMet certificate.now 0 high next }
    requires valid { AreRules certificate.now.matrix certificate.now.order certificate.now.rules }
    requires p_shape { Suits certificate.now.matrix p.old }
    requires q_shape { Suits certificate.now.matrix q.old }
    ensures met { IfOk result (λ now. AreMet certificate.now 0 (high + 1) now) }
    ensures wrong { OnErr result (Finds result (first_from line (join_lines certificate.now))) }
    ensures p_shape { Suits certificate.now.matrix p.new }
    ensures q_shape { Suits certificate.now.matrix q.new }
{
    let mut judged = next;
    for low in 0..high {
        judged = check_pair(certificate, low, high, judged, line, p, q)?;
    }
    Ok(judged)
}

/// Stops at the first wrong join, or after the joins where a pair is left. The first of them stands
/// in this line.
pub fn check_joins(alloc: Global, certificate: &Certificate, line: u64) -> Result<(), Stop>
    requires line { line ≤ 2 ^ 60 }
    requires valid { AreRules certificate.now.matrix certificate.now.order certificate.now.rules }
    ensures { Finds result (first_from line (join_lines certificate.now)) }
{
    let mut p = one_of(alloc, certificate.matrix())?;
    let mut q = one_of(alloc, certificate.matrix())?;
    let rules = certificate.rules().len() as u32;
    let mut next = 0usize;
    for high in 0..rules {
        next = check_row(certificate, high, next, line, &mut p, &mut q)?;
    }
    if next < certificate.joins().len() {
        let line = line + next as u64;
        return Err(Stop::Wrong(Fault {
            line,
            reason: Reason::PairMissing,
        }));
    }
    Ok(())
}
