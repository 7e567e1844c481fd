//! Look-ups: the record of a kind and a name, which may be of any bytes.
ghost use Rattle.std.specs.Prelude.{IfOk};
ghost use Rattle.mb_registry.specs.Faults.{Looks};
ghost use Rattle.mb_registry.specs.Looking.{analysis_named, basis_named, dataset_named, get_of, kept, model_named};
ghost use Rattle.mb_registry.specs.RecordsSeen.{record_value};
ghost use Rattle.mb_reports.specs.Analysed.{report_on};
ghost use Rattle.mb_reports.specs.Report.{IsReport};

use crate::bodies::{analysis_in, basis_in, dataset_in, model_in, record_of};
use crate::fault::RegistryFault;
use crate::kinds::Kind;
use crate::names::Name;
use crate::records::Record;
use crate::texts::{Body, Text};
use mb_certificate::Certificate;
use mb_data::Dataset;
use mb_kinds::Model;
use mb_outside::Keeper;
use mb_reports::Analysis;
use std::alloc::Global;

/// The body that is kept under a kind and a name.
pub(crate) fn kept<K: Keeper>(
    alloc: Global,
    keeper: &mut K,
    kind: Kind,
    name: &str,
) -> Result<Body, RegistryFault>
    ensures looks { Looks (λ body. body) (K.rows keeper.old) (K.rows keeper.new)
        (K.faults keeper.old) (K.faults keeper.new)
        result (kept kind name.now) }
{
    match keeper.get(alloc, kind.number(), name)? {
        Some(body) => Ok(Body::of(body)),
        None => Err(RegistryFault::Unknown {
            kind,
            name: Text::copy_of(alloc, name)?,
        }),
    }
}

/// The record of a kind and a name.
pub(crate) fn find<K: Keeper>(
    alloc: Global,
    keeper: &mut K,
    kind: Kind,
    name: &str,
) -> Result<Record, RegistryFault>
    ensures looks { Looks record_value (K.rows keeper.old) (K.rows keeper.new)
        (K.faults keeper.old) (K.faults keeper.new)
        result (get_of kind name.now) }
{
    let body = kept(alloc, keeper, kind, name)?;
    match record_of(alloc, kind, body.as_slice())? {
        Some(found) => Ok(found),
        None => Err(RegistryFault::BadRecord {
            kind,
            name: Text::copy_of(alloc, name)?,
        }),
    }
}

/// The dataset of a name.
pub fn dataset<K: Keeper>(
    alloc: Global,
    keeper: &mut K,
    name: &str,
) -> Result<Dataset, RegistryFault>
    ensures looks { Looks (λ d. d) (K.rows keeper.old) (K.rows keeper.new)
        (K.faults keeper.old) (K.faults keeper.new)
        result (dataset_named name.now) }
{
    let body = kept(alloc, keeper, Kind::Dataset, name)?;
    match dataset_in(alloc, body.as_slice())? {
        Some(found) => Ok(found),
        None => Err(RegistryFault::BadRecord {
            kind: Kind::Dataset,
            name: Text::copy_of(alloc, name)?,
        }),
    }
}

/// The model of a name, and the name of its dataset before it.
pub fn model<K: Keeper>(
    alloc: Global,
    keeper: &mut K,
    name: &str,
) -> Result<(Name, Model), RegistryFault>
    ensures looks { Looks (λ m. m) (K.rows keeper.old) (K.rows keeper.new)
        (K.faults keeper.old) (K.faults keeper.new)
        result (model_named name.now) }
{
    let body = kept(alloc, keeper, Kind::Model, name)?;
    match model_in(alloc, body.as_slice())? {
        Some(found) => Ok(found),
        None => Err(RegistryFault::BadRecord {
            kind: Kind::Model,
            name: Text::copy_of(alloc, name)?,
        }),
    }
}

/// The certificate of the basis of a name, and the name of its model before it.
pub fn basis<K: Keeper>(
    alloc: Global,
    keeper: &mut K,
    name: &str,
) -> Result<(Name, Certificate), RegistryFault>
    ensures looks { Looks (λ b. b) (K.rows keeper.old) (K.rows keeper.new)
        (K.faults keeper.old) (K.faults keeper.new)
        result (basis_named name.now) }
{
    let body = kept(alloc, keeper, Kind::Basis, name)?;
    match basis_in(alloc, body.as_slice())? {
        Some(found) => Ok(found),
        None => Err(RegistryFault::BadRecord {
            kind: Kind::Basis,
            name: Text::copy_of(alloc, name)?,
        }),
    }
}

/// The analysis of a name.
pub fn analysis<K: Keeper>(
    alloc: Global,
    keeper: &mut K,
    name: &str,
) -> Result<Analysis, RegistryFault>
    ensures looks { Looks report_on (K.rows keeper.old) (K.rows keeper.new)
        (K.faults keeper.old) (K.faults keeper.new)
        result (analysis_named name.now) }
    ensures sound { IfOk result (λ found. IsReport (report_on found)) }
{
    let body = kept(alloc, keeper, Kind::Analysis, name)?;
    match analysis_in(alloc, body.as_slice())? {
        Some(found) => Ok(found),
        None => Err(RegistryFault::BadRecord {
            kind: Kind::Analysis,
            name: Text::copy_of(alloc, name)?,
        }),
    }
}
