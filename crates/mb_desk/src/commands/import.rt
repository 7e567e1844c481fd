//! `import NAME BASIS MOVES [--limit L]`.
ghost use Rattle.std.specs.Prelude.{◌≡◌, ◌≤◌, IfOk, false};
ghost use Rattle.mb_certificate.specs.Valid.{IsValid};
ghost use Rattle.mb_desk.specs.Decision.{
  Does,
  DoesFiles,
  DoesRows,
  Follows,
  InWorld,
  blames,
  scene,
};
ghost use Rattle.mb_desk.specs.ImportCommand.{
  beside_of,
  beside_stop,
  checked_beside,
  import_added,
  import_kept,
  import_plan,
  imported,
  moves_file,
};
ghost use Rattle.mb_desk.specs.SoundLaws.{CanBeSaid, ImportedIsSaid};
ghost use Rattle.mb_desk.specs.declared.requests.Request.TheVariants.{Import};
ghost use Rattle.mb_outside.specs.Told.{WhereTold};
ghost use Rattle.mb_paths.specs.Between.{most_between};

use crate::commands::basis::{basis_body, certificate_lines};
use crate::commands::check::judge;
use crate::judging::moves_text;
use crate::plans::{Plan, Stop};
use crate::reading::read_file;
use crate::records::{find_basis, keep};
use crate::refusals::Refusal;
use crate::requests::ImportWords;
use crate::texts::{NameWord, Word};
use mb_certificate::Certificate;
use mb_outside::{Files, Keeper};
use mb_paths::{BesideFault, beside};
use mb_registry::{Kind, Name};
use mb_tables::Moves;
use std::alloc::Global;

/// Why the work stops for the fault of moves beside a certificate.
fn beside_stop(certificate: &Certificate, moves: &Moves, fault: BesideFault) -> Stop
    ensures { result ≡ beside_stop certificate.now moves.now fault }
{
    match fault {
        BesideFault::WidthDiffers => Stop::Refused(Refusal::WidthDiffers {
            matrix: certificate.matrix().cols(),
            moves: moves.width(),
        }),
        BesideFault::NotAMove { row } => Stop::Refused(Refusal::NotAMove { row }),
        BesideFault::NotBasis { rule, left, right } => {
            Stop::Refused(Refusal::NotBasis { rule, left, right })
        }
        BesideFault::TooLarge { rule, seen } => Stop::Refused(Refusal::TooLargeRule { rule, seen }),
        BesideFault::OutOfMemory => Stop::Memory,
    }
}

/// The certificate with these moves, and the least paths that they have, beside a valid one.
fn prove_beside(
    alloc: Global,
    certificate: &Certificate,
    moves: &Moves,
    limit: u32,
) -> Result<Certificate, Stop>
    requires valid { IsValid certificate.now }
    requires some { 1 ≤ limit }
    requires small { limit ≤ most_between }
    ensures new { Follows result (beside_of limit certificate.now moves.now) }
    ensures own { blames result ≡ false }
{
    let _parts = certificate.matrix();
    match beside(alloc, certificate, moves, limit) {
        Ok(new) => Ok(new),
        Err(fault) => Err(beside_stop(certificate, moves, fault)),
    }
}

/// The same, where the certificate is checked first.
fn check_beside(
    alloc: Global,
    certificate: Certificate,
    moves: &Moves,
    limit: u32,
) -> Result<Certificate, Stop>
    requires some { 1 ≤ limit }
    requires small { limit ≤ most_between }
    ensures new { Follows result (checked_beside limit moves.now certificate) }
    ensures own { blames result ≡ false }
{
    let right = judge(alloc, certificate)?;
    prove_beside(alloc, &right, moves, limit)
}

/// The same of the certificate of the basis that is named; the name of its model comes first.
fn import<K: Keeper>(
    alloc: Global,
    keeper: &mut K,
    words: &ImportWords<'_>,
    moves: &Moves,
) -> Result<(Name, Certificate), Stop>
    ensures does { DoesRows (K.rows keeper.old) (K.rows keeper.new)
        (K.faults keeper.old) (K.faults keeper.new)
        result (imported words.now moves.now) }
{
    let (model, certificate) = find_basis(alloc, keeper, words.basis.as_str())?;
    let limit = words.limit.tables();
    match check_beside(alloc, certificate, moves, limit) {
        Ok(new) => Ok((model, new)),
        Err(stop) => Err(stop),
    }
}

/// The plan that keeps the new basis, of the model of a name.
fn keep_basis<'a, K: Keeper>(
    alloc: Global,
    keeper: &mut K,
    name: &NameWord<'a>,
    proved: &(Name, Certificate),
) -> Result<Plan<'a>, Stop>
    ensures does { DoesRows (K.rows keeper.old) (K.rows keeper.new)
        (K.faults keeper.old) (K.faults keeper.new)
        result (import_kept name.now proved.now) }
{
    let model = proved.0.text();
    let body = basis_body(alloc, model, &proved.1)?;
    let lines = certificate_lines(alloc, &proved.1)?;
    let reference = Some((Kind::Model, model));
    keep(alloc, keeper, Kind::Basis, name, reference, body, lines)
}

/// Moves that were read are proved, and kept.
fn add<'a, K: Keeper>(
    alloc: Global,
    keeper: &mut K,
    words: &ImportWords<'a>,
    moves: &Moves,
) -> Result<Plan<'a>, Stop>
    ensures does { DoesRows (K.rows keeper.old) (K.rows keeper.new)
        (K.faults keeper.old) (K.faults keeper.new)
        result (import_added words.now moves.now) }
    ensures said { IfOk result (λ _. WhereTold (K.rows keeper.old) (K.rows keeper.new)
        (λ rows _. ImportedIsSaid words.now moves.now rows)) }
{
    let proved = import(alloc, keeper, words, moves)?;
    let _parts = proved.1.matrix();
    keep_basis(alloc, keeper, &words.name, &proved)
}

/// The moves in the file.
fn read_moves<F: Files>(alloc: Global, files: &mut F, file: &Word<'_>) -> Result<Moves, Stop>
    ensures does { DoesFiles (F.held files.old) (F.held files.new)
        (F.faults files.old) (F.faults files.new)
        result (moves_file file.now) }
{
    let text = read_file(alloc, files, file, 1)?;
    moves_text(alloc, text, 1)
}

/// Moves are proved beside a certificate, and the new one kept.
pub fn plan<'a, F: Files, K: Keeper>(
    alloc: Global,
    files: &mut F,
    keeper: &mut K,
    words: &ImportWords<'a>,
) -> Result<Plan<'a>, Stop>
    ensures does { Does
        (scene (F.held files.old) (F.faults files.old) (K.rows keeper.old) (K.faults keeper.old))
        (scene (F.held files.new) (F.faults files.new) (K.rows keeper.new) (K.faults keeper.new))
        result (import_plan words.now) }
    ensures said { IfOk result (λ _. InWorld
        (scene (F.held files.old) (F.faults files.old) (K.rows keeper.old) (K.faults keeper.old))
        (scene (F.held files.new) (F.faults files.new) (K.rows keeper.new) (K.faults keeper.new))
        (λ w _. CanBeSaid (Import words.now) w)) }
{
    let moves = read_moves(alloc, files, &words.moves)?;
    add(alloc, keeper, words, &moves)
}
