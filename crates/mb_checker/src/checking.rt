//! The check of a certificate, line by line.

ghost use Rattle.std.specs.Prelude.{◌≡◌, ◌↔◌, IfOk};
ghost use Rattle.mb_certificate.specs.FirstFault.{first_fault};
ghost use Rattle.mb_certificate.specs.Valid.{IsValid};
ghost use Rattle.mb_checker.specs.Finds.{Finds};
ghost use Rattle.mb_checker.specs.Verdict.{told_fault};
ghost use Rattle.mb_checker.specs.declared.verdict.Verdict.TheVariants.{Joins};
ghost use Rattle.mb_matrix.specs.MarkovBasis.{IsMarkovBasis};

use crate::joins::check_joins;
use crate::moves::check_moves;
use crate::paths::check_paths;
use crate::rules::check_rules;
use crate::starts::check_starts;
use crate::stop::Stop;
use crate::verdict::Verdict;
use mb_certificate::Certificate;
use mb_tables::OutOfMemory;
use std::alloc::Global;

/// Stops at the first wrong line. Each list begins after a line with the number of its items; above
/// the moves are the first line, the matrix, the order and their number.
fn check_lines(alloc: Global, certificate: &Certificate) -> Result<(), Stop>
    ensures { Finds result (first_fault certificate.now) }
{
    let line = u64::from(certificate.matrix().rows()) + 5;
    check_moves(certificate, line)?;
    let line = line + u64::from(certificate.moves().len()) + 1;
    check_rules(certificate, line)?;
    let line = line + certificate.rules().len() as u64 + 1;
    check_starts(alloc, certificate, line)?;
    let line = line + certificate.starts().len() as u64 + 1;
    check_joins(alloc, certificate, line)?;
    let line = line + certificate.joins().len() as u64 + 1;
    check_paths(alloc, certificate, line)
}

/// Whether a certificate is valid, and its first wrong line where it isn't. The moves of a valid
/// one are a Markov basis of its matrix (Diaconis and Sturmfels 1998). Each trace is replayed, and
/// each path walked, in place: beside the certificate it takes the memory of a few monomials and
/// one table.
pub fn check(alloc: Global, certificate: &Certificate) -> Result<Verdict, OutOfMemory>
    ensures joins { IfOk result (λ verdict. (verdict ≡ Joins) ↔ IsValid certificate.now) }
    ensures basis { IfOk result (λ verdict.
        verdict ≡ Joins → IsMarkovBasis certificate.now.matrix certificate.now.moves) }
    ensures first { IfOk result (λ verdict. first_fault certificate.now ≡ told_fault verdict) }
{
    let _matrix = certificate.matrix();
    match check_lines(alloc, certificate) {
        Ok(()) => Ok(Verdict::Joins),
        Err(Stop::Wrong(fault)) => Ok(Verdict::Refused {
            line: fault.line,
            reason: fault.reason,
        }),
        Err(Stop::OutOfMemory) => Err(OutOfMemory),
    }
}
