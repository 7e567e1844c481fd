//! The one change of a command.
ghost use Rattle.std.specs.Prelude.{◌≡◌, Err};
ghost use Rattle.mb_desk.specs.Changes.{ChangesRows, WritesFile, keep_stop};
ghost use Rattle.mb_desk.specs.Decision.{blames, scene};
ghost use Rattle.mb_desk.specs.Ends.{Commits};
ghost use Rattle.mb_desk.specs.declared.plans.Change.TheVariants.{Adds, Removes};
ghost use Rattle.mb_outside.specs.Causes.{HasCause};
ghost use Rattle.mb_outside.specs.Told.{WhereTold};

use crate::plans::{Change, Stop};
use crate::refusals::Refusal;
use crate::texts::Word;
use mb_outside::{FileFault, Files, KeepFault, Keeper};
use mb_registry::{Body, Kind, Text};
use std::alloc::Global;

/// Why the work stops for a fault of the keeper.
fn keep_stop(fault: KeepFault) -> Stop
    ensures { result ≡ keep_stop fault }
{
    match fault {
        KeepFault::Failed => Stop::Outside,
        KeepFault::OutOfMemory => Stop::Memory,
    }
}

/// Adds a row. Where the plan saw none, there is one only if another hand put it there meanwhile.
fn add_row<K: Keeper>(
    alloc: Global,
    keeper: &mut K,
    kind: Kind,
    name: &Word<'_>,
    body: &Body,
) -> Result<(), Stop>
    ensures made { WhereTold (K.rows keeper.old) (K.rows keeper.new)
        (λ before after. ChangesRows (Adds kind name.now body.now) before after result) }
    ensures cause { HasCause (K.faults keeper.old) (K.faults keeper.new) (blames result) }
{
    match keeper.put(alloc, kind.number(), name.as_str(), body.as_slice()) {
        Ok(None) => Ok(()),
        Ok(Some(_)) => Err(Stop::Refused(Refusal::Conflict {
            kind,
            name: Text::copy_of(alloc, name.as_str())?,
        })),
        Err(fault) => Err(keep_stop(fault)),
    }
}

/// Takes a row out. Where the plan saw it, it is gone only if another hand took it meanwhile.
fn take_row<K: Keeper>(
    alloc: Global,
    keeper: &mut K,
    kind: Kind,
    name: &Word<'_>,
) -> Result<(), Stop>
    ensures made { WhereTold (K.rows keeper.old) (K.rows keeper.new)
        (λ before after. ChangesRows (Removes kind name.now) before after result) }
    ensures cause { HasCause (K.faults keeper.old) (K.faults keeper.new) (blames result) }
{
    match keeper.remove(kind.number(), name.as_str()) {
        Ok(true) => Ok(()),
        Ok(false) => Err(Stop::Refused(Refusal::Unknown {
            kind,
            name: Text::copy_of(alloc, name.as_str())?,
        })),
        Err(fault) => Err(keep_stop(fault)),
    }
}

/// Writes a file.
fn write_file<F: Files>(files: &mut F, file: &Word<'_>, body: &Body) -> Result<(), Stop>
    ensures made { WritesFile file.now body.now (F.held files.old) (F.held files.new) result }
    ensures cause { HasCause (F.faults files.old) (F.faults files.new) (blames result) }
{
    match files.write(file.as_str(), body.as_slice()) {
        Ok(()) => Ok(()),
        Err(FileFault::OutOfMemory) => Err(Stop::Memory),
        Err(FileFault::Failed) => Err(Stop::Outside),
        Err(FileFault::TooLong) => unreachable!(),
    }
}

/// Makes the change of a plan: one call of the keeper or of the files, or none.
#[tactic(auto, using(crate::proofs::Counts::files_cause, crate::proofs::Counts::keeper_cause))]
pub fn commit<F: Files, K: Keeper>(
    alloc: Global,
    files: &mut F,
    keeper: &mut K,
    change: &Change<'_>,
) -> Result<(), Stop>
    ensures commits { Commits
        (scene (F.held files.old) (F.faults files.old) (K.rows keeper.old) (K.faults keeper.old))
        (scene (F.held files.new) (F.faults files.new) (K.rows keeper.new) (K.faults keeper.new))
        change.now result }
{
    match change {
        Change::Nothing => Ok(()),
        Change::Adds { kind, name, body } => add_row(alloc, keeper, *kind, name, body),
        Change::Removes { kind, name } => take_row(alloc, keeper, *kind, name),
        Change::Writes { file, body } => write_file(files, file, body),
    }
}
