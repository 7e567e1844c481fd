//! `check CERTIFICATE`.
ghost use Rattle.std.specs.Prelude.{◌≡◌, IfOk, false};
ghost use Rattle.mb_certificate.specs.Valid.{IsValid};
ghost use Rattle.mb_desk.specs.CheckCommand.{
  certified,
  check_plan,
  checked,
  found,
  joins_line,
  judged,
};
ghost use Rattle.mb_desk.specs.Decision.{DoesFiles, Follows, blames};
ghost use Rattle.mb_desk.specs.Needs.{FilesAlone, Touches};

use crate::plans::{Change, Plan, Stop};
use crate::reading::read_file;
use crate::refusals::Refusal;
use crate::texts::Word;
use mb_certificate::{Certificate, ReadFault, read};
use mb_checker::{Verdict, check};
use mb_outside::Files;
use mb_registry::Body;
use std::alloc::{AllocError, Global};

/// The certificate that the text of the file of this number is. The text is dropped.
fn read_text(alloc: Global, text: Body, file: u32) -> Result<Certificate, Stop>
    ensures certificate { Follows result (certified file text) }
    ensures own { blames result ≡ false }
{
    match read(alloc, text.as_slice()) {
        Ok(certificate) => Ok(certificate),
        Err(ReadFault::Text { line }) => Err(Stop::Refused(Refusal::Text { file, line })),
        Err(ReadFault::OutOfMemory) => Err(Stop::Memory),
    }
}

/// Judges each line of a certificate.
pub fn judge(alloc: Global, certificate: Certificate) -> Result<Certificate, Stop>
    ensures right { Follows result (judged certificate) }
    ensures valid { IfOk result IsValid }
    ensures own { blames result ≡ false }
{
    match check(alloc, &certificate) {
        Ok(Verdict::Joins) => Ok(certificate),
        Ok(Verdict::Refused { line, reason }) => {
            Err(Stop::Refused(Refusal::Certificate { line, reason }))
        }
        Err(_) => Err(Stop::Memory),
    }
}

/// Reads the file, then its text.
fn find_certificate<F: Files>(
    alloc: Global,
    files: &mut F,
    name: &Word<'_>,
) -> Result<Certificate, Stop>
    ensures does { DoesFiles (F.held files.old) (F.held files.new)
        (F.faults files.old) (F.faults files.new)
        result (found name.now) }
{
    let text = read_file(alloc, files, name, 1)?;
    read_text(alloc, text, 1)
}

/// Reads the certificate of the file, and judges it.
fn check_file<F: Files>(alloc: Global, files: &mut F, name: &Word<'_>) -> Result<Certificate, Stop>
    ensures does { DoesFiles (F.held files.old) (F.held files.new)
        (F.faults files.old) (F.faults files.new)
        result (checked name.now) }
{
    let certificate = find_certificate(alloc, files, name)?;
    judge(alloc, certificate)
}

/// The line that is printed.
fn joins_line(alloc: Global, certificate: &Certificate) -> Result<Body, AllocError>
    ensures { IfOk result (λ line. line ≡ joins_line certificate.now) }
{
    let rules = certificate.rules().len();
    let moves = certificate.moves().len();
    let joins = certificate.joins().len();
    let line = format!(in alloc; "joins rules {rules} moves {moves} pairs {joins}\n")?;
    Ok(Body::of_line(line))
}

/// The certificate is checked. Nothing is stored.
pub fn plan<'a, F: Files>(alloc: Global, files: &mut F, name: &Word<'_>) -> Result<Plan<'a>, Stop>
    ensures does { DoesFiles (F.held files.old) (F.held files.new)
        (F.faults files.old) (F.faults files.new)
        result (check_plan name.now) }
    ensures touches { IfOk result (λ plan. Touches FilesAlone plan.change) }
{
    let certificate = check_file(alloc, files, name)?;
    let answer = joins_line(alloc, &certificate)?;
    Ok(Plan {
        answer,
        change: Change::Nothing,
    })
}
