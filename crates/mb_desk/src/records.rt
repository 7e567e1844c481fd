//! The registry's records, as commands look them up, keep them and take them out.
ghost use Rattle.std.specs.Option.{option_map};
ghost use Rattle.std.specs.Prelude.{◌≡◌, ◌++◌, IfOk};
ghost use Rattle.mb_desk.specs.Decision.{DoesRows};
ghost use Rattle.mb_desk.specs.Needs.{RowsAlone, Touches};
ghost use Rattle.mb_desk.specs.Recorded.{
  added_change,
  added_line,
  added_to,
  added_word,
  change_refusal,
  found,
  kept_plan,
  look_refusal,
  registry_stop,
};
ghost use Rattle.mb_desk.specs.RemoveCommand.{removable};
ghost use Rattle.mb_registry.specs.Looking.{basis_named, dataset_named, model_named};

use crate::plans::{Change, Plan, Stop};
use crate::refusals::Refusal;
use crate::texts::NameWord;
use mb_certificate::Certificate;
use mb_data::Dataset;
use mb_kinds::Model;
use mb_outside::Keeper;
use mb_registry::{
    Added, Body, Kind, Name, RegistryFault, Text, basis, dataset, model, would_add, would_remove,
};
use std::alloc::{AllocError, Global};

/// Why the work stops for a fault of a look-up or a list. None of them answers `InUse` or
/// `Conflict`.
pub fn look_stop(fault: RegistryFault) -> Stop
    ensures { result ≡ registry_stop look_refusal fault }
{
    match fault {
        RegistryFault::Unknown { kind, name } => Stop::Refused(Refusal::Unknown { kind, name }),
        RegistryFault::BadRecord { kind, name } => {
            Stop::Refused(Refusal::BadRecord { kind, name })
        }
        RegistryFault::InUse { by: _ } | RegistryFault::Conflict { kept: _ } => {
            Stop::Refused(Refusal::TooWide)
        }
        RegistryFault::Keeper => Stop::Outside,
        RegistryFault::OutOfMemory => Stop::Memory,
    }
}

/// Why the work stops for a fault of adding or removing the record of this kind and name.
fn change_stop(kind: Kind, name: Text, fault: RegistryFault) -> Stop
    ensures { result ≡ registry_stop (change_refusal kind name) fault }
{
    match fault {
        RegistryFault::InUse { by } => Stop::Refused(Refusal::InUse { kind, name, by }),
        RegistryFault::Conflict { kept: _ } => Stop::Refused(Refusal::Conflict { kind, name }),
        other => look_stop(other),
    }
}

/// The dataset of a name.
pub fn find_dataset<K: Keeper>(alloc: Global, keeper: &mut K, name: &str) -> Result<Dataset, Stop>
    ensures does { DoesRows (K.rows keeper.old) (K.rows keeper.new)
        (K.faults keeper.old) (K.faults keeper.new)
        result (found (dataset_named name.now)) }
{
    match dataset(alloc, keeper, name) {
        Ok(dataset) => Ok(dataset),
        Err(fault) => Err(look_stop(fault)),
    }
}

/// The model of a name, and the name of its dataset before it.
pub fn find_model<K: Keeper>(
    alloc: Global,
    keeper: &mut K,
    name: &str,
) -> Result<(Name, Model), Stop>
    ensures does { DoesRows (K.rows keeper.old) (K.rows keeper.new)
        (K.faults keeper.old) (K.faults keeper.new)
        result (found (model_named name.now)) }
{
    match model(alloc, keeper, name) {
        Ok(entry) => Ok(entry),
        Err(fault) => Err(look_stop(fault)),
    }
}

/// The certificate of the basis of a name, and the name of its model before it.
pub fn find_basis<K: Keeper>(
    alloc: Global,
    keeper: &mut K,
    name: &str,
) -> Result<(Name, Certificate), Stop>
    ensures does { DoesRows (K.rows keeper.old) (K.rows keeper.new)
        (K.faults keeper.old) (K.faults keeper.new)
        result (found (basis_named name.now)) }
{
    match basis(alloc, keeper, name) {
        Ok(entry) => Ok(entry),
        Err(fault) => Err(look_stop(fault)),
    }
}

/// What adding a record would answer, from its kind, its name, the record that it refers to, and
/// its body.
#[tactic(auto, unfolding(crate::specs::Recorded::added_to))]
fn try_add<K: Keeper>(
    alloc: Global,
    keeper: &mut K,
    kind: Kind,
    name: &NameWord<'_>,
    reference: Option<(Kind, &str)>,
    body: &Body,
) -> Result<Added, Stop>
    ensures does { DoesRows (K.rows keeper.old) (K.rows keeper.new)
        (K.faults keeper.old) (K.faults keeper.new)
        result (added_to kind name.now (option_map (λ r. (r.0, r.1.now)) reference.entry)
        body.now) }
{
    let own = Text::copy_of(alloc, name.as_str())?;
    match would_add(
        alloc,
        keeper,
        kind,
        name.as_str(),
        reference,
        body.as_slice(),
    ) {
        Ok(added) => Ok(added),
        Err(fault) => Err(change_stop(kind, own, fault)),
    }
}

/// Looks that the record of a kind and a name may be removed.
pub fn try_remove<K: Keeper>(
    alloc: Global,
    keeper: &mut K,
    kind: Kind,
    name: &NameWord<'_>,
) -> Result<(), Stop>
    ensures does { DoesRows (K.rows keeper.old) (K.rows keeper.new)
        (K.faults keeper.old) (K.faults keeper.new)
        result (removable kind name.now) }
{
    let own = Text::copy_of(alloc, name.as_str())?;
    match would_remove(alloc, keeper, kind, name.as_str()) {
        Ok(done) => Ok(done),
        Err(fault) => Err(change_stop(kind, own, fault)),
    }
}

/// The word of what became of a record.
fn added_word(added: Added) -> &'static str
    ensures { result.now ≡ added_word added }
{
    match added {
        Added::Stored => "stored",
        Added::Unchanged => "unchanged",
    }
}

/// The line of what became of the record of this kind and name, and then these lines.
fn added_text(
    alloc: Global,
    added: Added,
    kind: Kind,
    name: &str,
    lines: &[u8],
) -> Result<Body, AllocError>
    ensures { IfOk result (λ text. text ≡ added_line added kind name.now ++ lines.now) }
{
    let word = added_word(added);
    let kind_word = kind.word();
    let mut text = format!(in alloc; "{word} {kind_word} {name}\n")?.into_bytes();
    text.extend_from_slice(lines)?;
    Ok(Body::of(text))
}

/// The change that adds a record, where it isn't there.
fn added_change<'a>(added: Added, kind: Kind, name: &NameWord<'a>, body: Body) -> Change<'a>
    ensures { result ≡ added_change added kind name.now body }
{
    match added {
        Added::Stored => Change::Adds {
            kind,
            name: name.word(),
            body,
        },
        Added::Unchanged => Change::Nothing,
    }
}

/// The plan that keeps a record, from its kind, its name, the record that it refers to, and its
/// body: what becomes of it is printed, and then these lines.
pub fn keep<'a, K: Keeper>(
    alloc: Global,
    keeper: &mut K,
    kind: Kind,
    name: &NameWord<'a>,
    reference: Option<(Kind, &str)>,
    body: Body,
    lines: Body,
) -> Result<Plan<'a>, Stop>
    ensures does { DoesRows (K.rows keeper.old) (K.rows keeper.new)
        (K.faults keeper.old) (K.faults keeper.new)
        result (kept_plan kind name.now (option_map (λ r. (r.0, r.1.now)) reference.entry)
        body lines) }
    ensures touches { IfOk result (λ plan. Touches RowsAlone plan.change) }
{
    let added = try_add(alloc, keeper, kind, name, reference, &body)?;
    let answer = added_text(alloc, added, kind, name.as_str(), lines.as_slice())?;
    Ok(Plan {
        answer,
        change: added_change(added, kind, name, body),
    })
}
