//! The lines of paths.

ghost use Rattle.std.specs.Prelude.{◌≡◌, ◌<◌, ◌≤◌, ◌+◌, ◌^◌, IfOk, None, OnErr, Some, drop, length, nat_eq, slice_get};
ghost use Rattle.mb_certificate.specs.FirstFault.{first_from, path_lines, steps_fault};
ghost use Rattle.mb_certificate.specs.Valid.{AreMoves, free_rules, is_free};
ghost use Rattle.mb_checker.specs.Finds.{Finds};
ghost use Rattle.mb_checker.specs.loops.Taken.{ArePassed};
ghost use Rattle.mb_order.specs.Peak.{left_of, right_of};

use crate::rules::rule;
use crate::stop::Stop;
use crate::walking::{is_table_of, name_moves, table_of, walk};
use mb_certificate::{Certificate, Fault, Path, Reason};
use mb_tables::OutOfMemory;
use std::alloc::Global;

/// What is wrong with the steps of a path.
fn steps_fault(
    alloc: Global,
    certificate: &Certificate,
    path: &Path,
) -> Result<Option<Reason>, OutOfMemory>
    requires rule { path.now.rule < length certificate.now.rules }
    requires moves { AreMoves certificate.now.matrix certificate.now.moves }
    ensures { IfOk result (λ fault. fault ≡ steps_fault certificate.now.moves path.now.steps
        (drop certificate.now.matrix.rows (left_of certificate.now.rules path.now.rule))
        (drop certificate.now.matrix.rows (right_of certificate.now.rules path.now.rule))) }
{
    let steps = path.steps.as_slice();
    if !name_moves(certificate, steps) {
        return Ok(Some(Reason::StepNotApplicable));
    }
    let rule = rule(certificate, path.rule);
    let mut table = table_of(alloc, &rule.left)?;
    if !walk(certificate, steps, &mut table) {
        return Ok(Some(Reason::PathBelowZero));
    }
    if !is_table_of(&table, &rule.right) {
        return Ok(Some(Reason::PathEnd));
    }
    Ok(None)
}

/// Whether a path is of this rule.
fn is_of(path: &Path, k: u32) -> bool
    ensures { result ≡ nat_eq k path.now.rule }
{
    k == path.rule
}

/// What is wrong with the next line, which is to be that of the path of a rule.
fn path_fault(
    alloc: Global,
    certificate: &Certificate,
    k: u32,
    next: usize,
) -> Result<Option<Reason>, OutOfMemory>
    requires rule { k < length certificate.now.rules }
    requires next { next ≤ length certificate.now.paths }
    requires turn { slice_get (free_rules certificate.now.matrix.rows certificate.now.rules) next
        ≡ Some k }
    requires moves { AreMoves certificate.now.matrix certificate.now.moves }
    ensures line { IfOk result (λ fault.
        slice_get (path_lines certificate.now) next ≡ Some fault) }
    ensures there { IfOk result (λ fault. fault ≡ None → next < length certificate.now.paths) }
{
    let paths = certificate.paths();
    if next == paths.len() {
        return Ok(Some(Reason::PathMissing));
    }
    let path = &paths[next];
    if !is_of(path, k) {
        return Ok(Some(Reason::PathMissing));
    }
    Ok(steps_fault(alloc, certificate, path)?)
}

/// Whether neither side of a rule has a symbol of a margin.
pub fn is_free(certificate: &Certificate, k: u32) -> bool
    requires { k < length certificate.now.rules }
    ensures { result ≡ is_free certificate.now.matrix.rows certificate.now.rules k }
{
    let rule = rule(certificate, k);
    rule.left.margin_free() && rule.right.margin_free()
}

/// Passes a rule with symbols of margins, or judges the next line, which is to be that of the
/// rule's path. The answer is the number of lines judged since; the first of them stands in `line`.
fn check_rule(
    alloc: Global,
    certificate: &Certificate,
    k: u32,
    next: usize,
    line: u64,
) -> Result<usize, Stop>
    requires rule { k < length certificate.now.rules }
    requires line { line ≤ 2 ^ 60 }
    requires passed { ArePassed certificate.now k next }
    requires moves { AreMoves certificate.now.matrix certificate.now.moves }
    ensures passed { IfOk result (λ now. ArePassed certificate.now (k + 1) now) }
    ensures wrong { OnErr result (Finds result (first_from line (path_lines certificate.now))) }
{
    if !is_free(certificate, k) {
        return Ok(next);
    }
    if let Some(reason) = path_fault(alloc, certificate, k, next)? {
        let line = line + next as u64;
        return Err(Stop::Wrong(Fault { line, reason }));
    }
    Ok(next + 1)
}

/// Stops at the first wrong path, or after the paths where a margin-free rule is left. The first of
/// them stands in this line.
pub fn check_paths(alloc: Global, certificate: &Certificate, line: u64) -> Result<(), Stop>
    requires line { line ≤ 2 ^ 60 }
    requires moves { AreMoves certificate.now.matrix certificate.now.moves }
    ensures { Finds result (first_from line (path_lines certificate.now)) }
{
    let rules = certificate.rules().len() as u32;
    let mut next = 0usize;
    for k in 0..rules {
        next = check_rule(alloc, certificate, k, next, line)?;
    }
    if next < certificate.paths().len() {
        let line = line + next as u64;
        return Err(Stop::Wrong(Fault {
            line,
            reason: Reason::PathMissing,
        }));
    }
    Ok(())
}
