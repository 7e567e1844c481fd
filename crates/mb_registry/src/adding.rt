//! Adding a record.
ghost use Rattle.std.specs.Option.{option_map};
ghost use Rattle.std.specs.Prelude.{◌≡◌};
ghost use Rattle.mb_registry.specs.Adding.{added_of, beside_kept, refers, rows_added};
ghost use Rattle.mb_registry.specs.Faults.{Looks, Steps};

use crate::fault::RegistryFault;
use crate::kinds::Kind;
use crate::looking::kept;
use crate::texts::Body;
use mb_outside::Keeper;
use std::alloc::Global;

/// What became of a record that was added.
#[derive(Clone, Copy, Debug, PartialEq, Eq)]
pub enum Added {
    /// It is stored.
    Stored,
    /// An equal body was kept before.
    Unchanged,
}

/// Looks that the record that is referred to is there, where there is a reference.
fn refers<K: Keeper>(
    alloc: Global,
    keeper: &mut K,
    reference: Option<(Kind, &str)>,
) -> Result<(), RegistryFault>
    ensures looks { Looks (λ done. done) (K.rows keeper.old) (K.rows keeper.new)
        (K.faults keeper.old) (K.faults keeper.new)
        result (refers (option_map (λ r. (r.0, r.1.now)) reference.entry)) }
{
    match reference {
        None => Ok(()),
        Some((kind, name)) => {
            kept(alloc, keeper, kind, name)?;
            Ok(())
        }
    }
}

/// What a body is beside the one that is kept, if any.
fn beside_kept(body: &[u8], old: Option<Vec<u8>>) -> Result<Added, RegistryFault>
    ensures { result ≡ beside_kept body.now (option_map (λ old. old.items) old) }
{
    match old {
        None => Ok(Added::Stored),
        Some(old) => {
            if old.as_slice() == body {
                Ok(Added::Unchanged)
            } else {
                Err(RegistryFault::Conflict {
                    kept: Body::of(old),
                })
            }
        }
    }
}

/// What adding a record would answer, from its kind, its name, the record that it refers to, and
/// its body. Nothing is stored.
pub fn would_add<K: Keeper>(
    alloc: Global,
    keeper: &mut K,
    kind: Kind,
    name: &str,
    reference: Option<(Kind, &str)>,
    body: &[u8],
) -> Result<Added, RegistryFault>
    ensures looks { Looks (λ added. added) (K.rows keeper.old) (K.rows keeper.new)
        (K.faults keeper.old) (K.faults keeper.new)
        result
        (added_of kind name.now (option_map (λ r. (r.0, r.1.now)) reference.entry) body.now) }
{
    refers(alloc, keeper, reference)?;
    let old = keeper.get(alloc, kind.number(), name)?;
    beside_kept(body, old)
}

/// Adds a record, from its kind, its name, the record that it refers to, and its body. What another
/// hand put there between the look and the store is answered as it is.
pub(crate) fn add<K: Keeper>(
    alloc: Global,
    keeper: &mut K,
    kind: Kind,
    name: &str,
    reference: Option<(Kind, &str)>,
    body: &[u8],
) -> Result<Added, RegistryFault>
    ensures steps { Steps (K.rows keeper.old) (K.rows keeper.new)
        (K.faults keeper.old) (K.faults keeper.new)
        result (added_of kind name.now (option_map (λ r. (r.0, r.1.now)) reference.entry) body.now)
        (rows_added kind name.now body.now) }
{
    match would_add(alloc, keeper, kind, name, reference, body)? {
        Added::Unchanged => Ok(Added::Unchanged),
        Added::Stored => {
            let old = keeper.put(alloc, kind.number(), name, body)?;
            beside_kept(body, old)
        }
    }
}
