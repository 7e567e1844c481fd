//! Removing a record.
ghost use Rattle.std.specs.FinMap.{get};
ghost use Rattle.std.specs.Option.{option_and_then, option_map};
ghost use Rattle.std.specs.Prelude.{◌≡◌, IfOk, Ok, Some, map, string_bytes};
ghost use Rattle.mb_registry.specs.Bodies.{record_of};
ghost use Rattle.mb_registry.specs.Faults.{Looks, Steps};
ghost use Rattle.mb_registry.specs.Kinds.{key_of};
ghost use Rattle.mb_registry.specs.Records.{reference_of};
ghost use Rattle.mb_registry.specs.RecordsSeen.{record_value};
ghost use Rattle.mb_registry.specs.Removing.{all_let_go, has_name, lets_go, listed_record, refers_to, removed_of, rows_removed, unused};

use crate::bodies::record_of;
use crate::fault::RegistryFault;
use crate::kinds::Kind;
use crate::looking::kept;
use crate::records::{Record, referring_kind};
use crate::texts::Text;
use mb_outside::Keeper;
use mb_tables::OutOfMemory;
use mb_text::is_name;
use std::alloc::Global;

/// The record of a kind that a body is, where there is a body and it is one.
fn record_in(
    alloc: Global,
    kind: Kind,
    body: Option<Vec<u8>>,
) -> Result<Option<Record>, OutOfMemory>
    ensures { IfOk result (λ found. option_map record_value found
        ≡ option_and_then (record_of kind) (option_map (λ body. body.items) body)) }
{
    match body {
        None => Ok(None),
        Some(body) => record_of(alloc, kind, body.as_slice()),
    }
}

/// The record of a kind and a name, where the row is there and its body is one.
fn record_there<K: Keeper>(
    alloc: Global,
    keeper: &mut K,
    kind: Kind,
    name: &str,
) -> Result<Option<Record>, RegistryFault>
    ensures looks { Looks (option_map record_value) (K.rows keeper.old) (K.rows keeper.new)
        (K.faults keeper.old) (K.faults keeper.new)
        result
        (λ rows. Ok (option_and_then (record_of kind) (get rows (key_of kind name.now)))) }
{
    let body = keeper.get(alloc, kind.number(), name)?;
    Ok(record_in(alloc, kind, body)?)
}

/// The record of a listed name, which has to be a name.
fn listed_record<K: Keeper>(
    alloc: Global,
    keeper: &mut K,
    kind: Kind,
    name: &str,
) -> Result<Record, RegistryFault>
    ensures looks { Looks record_value (K.rows keeper.old) (K.rows keeper.new)
        (K.faults keeper.old) (K.faults keeper.new)
        result (listed_record kind name.now) }
{
    if is_name(name.as_bytes()) {
        if let Some(entry) = record_there(alloc, keeper, kind, name)? {
            return Ok(entry);
        }
    }
    Err(RegistryFault::BadRecord {
        kind,
        name: Text::copy_of(alloc, name)?,
    })
}

/// Whether a record refers to one of this name.
fn has_name(entry: &Record, name: &str) -> bool
    ensures { result ≡ has_name name.now (reference_of (record_value entry.now)) }
{
    match entry.reference() {
        None => false,
        Some((_, referred)) => referred == name,
    }
}

/// Whether the record of a listed name refers to the record of this name.
fn refers_to<K: Keeper>(
    alloc: Global,
    keeper: &mut K,
    name: &str,
    by: Kind,
    referring: &str,
) -> Result<bool, RegistryFault>
    ensures looks { Looks (λ answer. answer) (K.rows keeper.old) (K.rows keeper.new)
        (K.faults keeper.old) (K.faults keeper.new)
        result (refers_to name.now by referring.now) }
{
    let entry = listed_record(alloc, keeper, by, referring)?;
    Ok(has_name(&entry, name))
}

/// Looks that the record of a listed name doesn't refer to the record of this name.
fn lets_go<K: Keeper>(
    alloc: Global,
    keeper: &mut K,
    name: &str,
    by: Kind,
    referring: &str,
) -> Result<(), RegistryFault>
    ensures looks { Looks (λ done. done) (K.rows keeper.old) (K.rows keeper.new)
        (K.faults keeper.old) (K.faults keeper.new)
        result (lets_go name.now by referring.now) }
{
    if refers_to(alloc, keeper, name, by, referring)? {
        return Err(RegistryFault::InUse {
            by: Text::copy_of(alloc, referring)?,
        });
    }
    Ok(())
}

/// Looks that the records of these listed names don't refer to the record of this name.
fn all_let_go<K: Keeper>(
    alloc: Global,
    keeper: &mut K,
    name: &str,
    by: Kind,
    names: &[String],
) -> Result<(), RegistryFault>
    ensures looks { Looks (λ done. done) (K.rows keeper.old) (K.rows keeper.new)
        (K.faults keeper.old) (K.faults keeper.new)
        result (all_let_go name.now by (map string_bytes names.now)) }
{
    for referring in names {
        lets_go(alloc, keeper, name, by, referring.as_str())?;
    }
    Ok(())
}

/// Looks that no record of this kind refers to the record of this name, in the order of names.
fn unused<K: Keeper>(
    alloc: Global,
    keeper: &mut K,
    name: &str,
    by: Kind,
) -> Result<(), RegistryFault>
    ensures looks { Looks (λ done. done) (K.rows keeper.old) (K.rows keeper.new)
        (K.faults keeper.old) (K.faults keeper.new)
        result (unused name.now (Some by)) }
{
    let names = keeper.names(alloc, by.number())?;
    all_let_go(alloc, keeper, name, by, names.as_slice())
}

/// What removing the record of a kind and a name would answer. Nothing is removed.
pub fn would_remove<K: Keeper>(
    alloc: Global,
    keeper: &mut K,
    kind: Kind,
    name: &str,
) -> Result<(), RegistryFault>
    ensures looks { Looks (λ done. done) (K.rows keeper.old) (K.rows keeper.new)
        (K.faults keeper.old) (K.faults keeper.new)
        result (removed_of kind name.now) }
{
    kept(alloc, keeper, kind, name)?;
    match referring_kind(kind) {
        None => Ok(()),
        Some(by) => unused(alloc, keeper, name, by),
    }
}

/// Removes the record of a kind and a name. What another hand took between the look and the removal
/// is answered as it is.
pub(crate) fn remove<K: Keeper>(
    alloc: Global,
    keeper: &mut K,
    kind: Kind,
    name: &str,
) -> Result<(), RegistryFault>
    ensures steps { Steps (K.rows keeper.old) (K.rows keeper.new)
        (K.faults keeper.old) (K.faults keeper.new)
        result (removed_of kind name.now) (rows_removed kind name.now) }
{
    would_remove(alloc, keeper, kind, name)?;
    if keeper.remove(kind.number(), name)? {
        return Ok(());
    }
    Err(RegistryFault::Unknown {
        kind,
        name: Text::copy_of(alloc, name)?,
    })
}
