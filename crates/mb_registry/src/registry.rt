//! The registry over a keeper.
ghost use Rattle.mb_registry.specs.Adding.{added_of, rows_added};
ghost use Rattle.mb_registry.specs.Bodies.{CanBeWritten, body_of};
ghost use Rattle.mb_registry.specs.Faults.{Looks, Steps};
ghost use Rattle.mb_registry.specs.Listing.{listed_of};
ghost use Rattle.mb_registry.specs.Looking.{get_of};
ghost use Rattle.mb_registry.specs.Records.{kind_of, reference_of};
ghost use Rattle.mb_registry.specs.RecordsSeen.{record_value};
ghost use Rattle.mb_registry.specs.Removing.{removed_of, rows_removed};

use crate::adding::{Added, add};
use crate::bodies::body_of;
use crate::fault::RegistryFault;
use crate::kinds::Kind;
use crate::listing::{Listed, list};
use crate::looking::find;
use crate::names::Name;
use crate::records::Record;
use crate::removing::remove;
use mb_outside::Keeper;
use std::alloc::Global;

/// The registry: its calls take the keeper of the bodies. Each answers what its definition decides
/// over the rows, where they are told; a refusal leaves them as they were, and `Keeper` comes
/// exactly where the keeper failed.
#[derive(Clone, Copy, Debug, PartialEq, Eq)]
pub struct Registry;

impl Registry {
    /// Adds a record under a name. The record that it refers to has to be there, and no other body
    /// under its own kind and name.
    pub fn add<K: Keeper>(
        alloc: Global,
        keeper: &mut K,
        name: &Name,
        entry: &Record,
    ) -> Result<Added, RegistryFault>
        requires { CanBeWritten (record_value entry.now) }
        ensures steps { Steps (K.rows keeper.old) (K.rows keeper.new)
            (K.faults keeper.old) (K.faults keeper.new)
            result
            (added_of (kind_of (record_value entry.now)) name.now
            (reference_of (record_value entry.now)) (body_of (record_value entry.now)))
            (rows_added (kind_of (record_value entry.now)) name.now
            (body_of (record_value entry.now))) }
    {
        let body = body_of(alloc, entry)?;
        let (kind, reference) = (entry.kind(), entry.reference());
        add(alloc, keeper, kind, name.text(), reference, body.as_slice())
    }

    /// The record of a kind and a name.
    pub fn get<K: Keeper>(
        alloc: Global,
        keeper: &mut K,
        kind: Kind,
        name: &Name,
    ) -> Result<Record, RegistryFault>
        ensures looks { Looks record_value (K.rows keeper.old) (K.rows keeper.new)
            (K.faults keeper.old) (K.faults keeper.new)
            result (get_of kind name.now) }
    {
        find(alloc, keeper, kind, name.text())
    }

    /// All records, by kind and then by name.
    pub fn list<K: Keeper>(alloc: Global, keeper: &mut K) -> Result<Vec<Listed>, RegistryFault>
        ensures looks { Looks (λ rows. rows.items) (K.rows keeper.old) (K.rows keeper.new)
            (K.faults keeper.old) (K.faults keeper.new)
            result listed_of }
    {
        list(alloc, keeper)
    }

    /// Removes the record of a kind and a name, to which no record may refer.
    pub fn remove<K: Keeper>(
        alloc: Global,
        keeper: &mut K,
        kind: Kind,
        name: &Name,
    ) -> Result<(), RegistryFault>
        ensures steps { Steps (K.rows keeper.old) (K.rows keeper.new)
            (K.faults keeper.old) (K.faults keeper.new)
            result (removed_of kind name.now) (rows_removed kind name.now) }
    {
        remove(alloc, keeper, kind, name.text())
    }
}
