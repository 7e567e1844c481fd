//! `basis NAME MODEL [--order O] [--pairs K]`.
ghost use Rattle.std.specs.Prelude.{◌≡◌, IfOk};
ghost use Rattle.mb_desk.specs.BasisCommand.{
  basis_plan,
  certificate_lines,
  completed_named,
  completion_lines,
};
ghost use Rattle.mb_desk.specs.Decision.{DoesRows};
ghost use Rattle.mb_desk.specs.Needs.{RowsAlone, Touches};
ghost use Rattle.mb_desk.specs.SoundLaws.{CompletedIsSaid};
ghost use Rattle.mb_outside.specs.Told.{WhereTold};
ghost use Rattle.mb_registry.specs.Bodies.{basis_text};

use crate::completing::{Completion, certify};
use crate::plans::{Plan, Stop};
use crate::records::{find_model, keep};
use crate::requests::BasisWords;
use mb_certificate::Certificate;
use mb_outside::Keeper;
use mb_registry::{Body, Kind, write_basis};
use std::alloc::{AllocError, Global};

/// The body of the record of a basis, from the name of its model.
pub fn basis_body(alloc: Global, model: &str, certificate: &Certificate) -> Result<Body, AllocError>
    ensures { IfOk result (λ body. body ≡ basis_text model.now certificate.now) }
{
    match write_basis(alloc, model, certificate) {
        Ok(body) => Ok(body),
        Err(_) => Err(AllocError),
    }
}

/// The lines of a certificate: how many rules and moves there are.
pub fn certificate_lines(alloc: Global, certificate: &Certificate) -> Result<Body, AllocError>
    ensures { IfOk result (λ text. text ≡ certificate_lines certificate.now) }
{
    let rules = certificate.rules().len();
    let moves = certificate.moves().len();
    let text = format!(in alloc; "rules {rules}\nmoves {moves}\n")?;
    Ok(Body::of_line(text))
}

/// The lines that are printed.
fn lines(alloc: Global, completion: &Completion) -> Result<Body, AllocError>
    ensures { IfOk result (λ text. text ≡ completion_lines completion.now) }
{
    let looks = completion.looks;
    let rules = completion.certificate.rules().len();
    let moves = completion.certificate.moves().len();
    let text = format!(in alloc; "looks {looks}\nrules {rules}\nmoves {moves}\n")?;
    Ok(Body::of_line(text))
}

/// The model of a name, completed.
fn complete_named<K: Keeper>(
    alloc: Global,
    keeper: &mut K,
    words: &BasisWords<'_>,
) -> Result<Completion, Stop>
    ensures does { DoesRows (K.rows keeper.old) (K.rows keeper.new)
        (K.faults keeper.old) (K.faults keeper.new)
        result (completed_named words.now) }
{
    let (_dataset, model) = find_model(alloc, keeper, words.model.as_str())?;
    certify(alloc, model.matrix(), words.order, words.looks.pairs())
}

/// A model is completed, and its certificate kept.
pub fn plan<'a, K: Keeper>(
    alloc: Global,
    keeper: &mut K,
    words: &BasisWords<'a>,
) -> Result<Plan<'a>, Stop>
    ensures does { DoesRows (K.rows keeper.old) (K.rows keeper.new)
        (K.faults keeper.old) (K.faults keeper.new)
        result (basis_plan words.now) }
    ensures touches { IfOk result (λ plan. Touches RowsAlone plan.change) }
    ensures said { IfOk result (λ _. WhereTold (K.rows keeper.old) (K.rows keeper.new)
        (λ rows _. CompletedIsSaid words.now rows)) }
{
    let completion = complete_named(alloc, keeper, words)?;
    let _parts = completion.certificate.matrix();
    let name = words.model.as_str();
    let body = basis_body(alloc, name, &completion.certificate)?;
    let lines = lines(alloc, &completion)?;
    let model = Some((Kind::Model, name));
    keep(alloc, keeper, Kind::Basis, &words.name, model, body, lines)
}
