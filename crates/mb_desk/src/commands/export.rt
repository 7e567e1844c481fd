//! `export WHAT NAME FILE`.
ghost use Rattle.std.specs.Prelude.{◌≡◌, IfOk};
ghost use Rattle.mb_data.specs.Written as datasets;
ghost use Rattle.mb_desk.specs.Decision.{Does, DoesRows, scene};
ghost use Rattle.mb_desk.specs.ExportCommand.{certificate_part, export_plan, exported, exported_basis, wrote_line};
ghost use Rattle.mb_text.specs.Lines.{line};

use crate::parts::Part;
use crate::plans::{Change, Plan, Stop};
use crate::records::look_stop;
use crate::texts::{NameWord, Word};
use mb_certificate::{Certificate, rule_table, write};
use mb_data::{Dataset, write_dataset};
use mb_moves::{write_design, write_moves};
use mb_outside::{Files, Keeper};
use mb_registry::{Body, basis, dataset, model};
use mb_tables::OutOfMemory;
use std::alloc::{AllocError, Global};

/// What is written of a dataset.
fn dataset_file(alloc: Global, dataset: &Dataset) -> Result<Body, OutOfMemory>
    ensures { IfOk result (λ body. body ≡ datasets.written dataset.now) }
{
    Ok(Body::of(write_dataset(alloc, dataset)?))
}

/// What is written of a part of a certificate.
fn certificate_part(
    alloc: Global,
    part: Part,
    certificate: &Certificate,
) -> Result<Body, OutOfMemory>
    ensures { IfOk result (λ body. body ≡ certificate_part part certificate.now) }
{
    let text = match part {
        Part::Moves => write_moves(alloc, certificate.moves())?,
        Part::Rules => rule_table(alloc, certificate)?,
        Part::Certificate | Part::Dataset | Part::Matrix => write(alloc, certificate)?,
    };
    Ok(Body::of(text))
}

/// What is written of the dataset of a name.
fn export_dataset<K: Keeper>(
    alloc: Global,
    keeper: &mut K,
    name: &NameWord<'_>,
) -> Result<Body, Stop>
    ensures does { DoesRows (K.rows keeper.old) (K.rows keeper.new)
        (K.faults keeper.old) (K.faults keeper.new)
        result (exported Part.Dataset name.now) }
{
    match dataset(alloc, keeper, name.as_str()) {
        Ok(dataset) => Ok(dataset_file(alloc, &dataset)?),
        Err(fault) => Err(look_stop(fault)),
    }
}

/// The matrix of the model of a name.
fn export_matrix<K: Keeper>(
    alloc: Global,
    keeper: &mut K,
    name: &NameWord<'_>,
) -> Result<Body, Stop>
    ensures does { DoesRows (K.rows keeper.old) (K.rows keeper.new)
        (K.faults keeper.old) (K.faults keeper.new)
        result (exported Part.Matrix name.now) }
{
    match model(alloc, keeper, name.as_str()) {
        Ok((_, model)) => Ok(Body::of(write_design(alloc, model.matrix())?)),
        Err(fault) => Err(look_stop(fault)),
    }
}

/// What is written of a part of the basis of a name.
fn export_basis<K: Keeper>(
    alloc: Global,
    keeper: &mut K,
    part: Part,
    name: &NameWord<'_>,
) -> Result<Body, Stop>
    ensures does { DoesRows (K.rows keeper.old) (K.rows keeper.new)
        (K.faults keeper.old) (K.faults keeper.new)
        result (exported_basis part name.now) }
{
    match basis(alloc, keeper, name.as_str()) {
        Ok((_, certificate)) => Ok(certificate_part(alloc, part, &certificate)?),
        Err(fault) => Err(look_stop(fault)),
    }
}

/// What is written of a part of the record of a name.
fn export<K: Keeper>(
    alloc: Global,
    keeper: &mut K,
    part: Part,
    name: &NameWord<'_>,
) -> Result<Body, Stop>
    ensures does { DoesRows (K.rows keeper.old) (K.rows keeper.new)
        (K.faults keeper.old) (K.faults keeper.new)
        result (exported part name.now) }
{
    match part {
        Part::Dataset => export_dataset(alloc, keeper, name),
        Part::Matrix => export_matrix(alloc, keeper, name),
        Part::Moves => export_basis(alloc, keeper, Part::Moves, name),
        Part::Certificate => export_basis(alloc, keeper, Part::Certificate, name),
        Part::Rules => export_basis(alloc, keeper, Part::Rules, name),
    }
}

/// The line that is printed.
fn wrote_line(alloc: Global, part: Part, name: &str, body: &Body) -> Result<Body, AllocError>
    ensures { IfOk result (λ line. line ≡ wrote_line part name.now body.now) }
{
    let word = part.word();
    let count = body.as_slice().len();
    Ok(Body::of_line(format!(in alloc; "wrote {word} {name} bytes {count}\n")?))
}

/// A part of a record is written to a file.
pub fn plan<'a, F: Files, K: Keeper>(
    alloc: Global,
    files: &mut F,
    keeper: &mut K,
    part: Part,
    name: &NameWord<'_>,
    file: &Word<'a>,
) -> Result<Plan<'a>, Stop>
    ensures does { Does
        (scene (F.held files.old) (F.faults files.old) (K.rows keeper.old) (K.faults keeper.old))
        (scene (F.held files.new) (F.faults files.new) (K.rows keeper.new) (K.faults keeper.new))
        result (export_plan part name.now file.now) }
{
    let _untouched = files;
    let body = export(alloc, keeper, part, name)?;
    let answer = wrote_line(alloc, part, name.as_str(), &body)?;
    Ok(Plan {
        answer,
        change: Change::Writes {
            file: file.again(),
            body,
        },
    })
}
