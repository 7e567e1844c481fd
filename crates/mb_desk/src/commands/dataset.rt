//! `dataset NAME FILE`.
ghost use Rattle.std.specs.Prelude.{◌≡◌, IfOk, false};
ghost use Rattle.mb_data.specs.Written.{written};
ghost use Rattle.mb_desk.specs.DatasetCommand.{
  cells_line,
  data_stop,
  dataset_file,
  dataset_plan,
  dataset_text,
};
ghost use Rattle.mb_desk.specs.Decision.{Does, DoesFiles, Follows, blames, scene};

use crate::plans::{Plan, Stop};
use crate::reading::read_file;
use crate::records::keep;
use crate::refusals::Refusal;
use crate::texts::{NameWord, Word};
use mb_data::{DataFault, Dataset, read_dataset, write_dataset};
use mb_outside::{Files, Keeper};
use mb_registry::{Body, Kind};
use mb_tables::OutOfMemory;
use std::alloc::{AllocError, Global};

/// Why the work stops for the fault of the text of the first file.
fn data_stop(fault: DataFault) -> Stop
    ensures { result ≡ data_stop fault }
{
    match fault {
        DataFault::OutOfMemory => Stop::Memory,
        DataFault::Csv { row } => Stop::Refused(Refusal::Csv {
            file: 1,
            record: row,
        }),
        DataFault::NoCountColumn => Stop::Refused(Refusal::NoCountColumn { file: 1 }),
        DataFault::NoFactor => Stop::Refused(Refusal::NoFactor { file: 1 }),
        DataFault::BadCount { row } => Stop::Refused(Refusal::BadCount {
            file: 1,
            record: row,
        }),
        DataFault::Repeated { row } => Stop::Refused(Refusal::Repeated {
            file: 1,
            record: row,
        }),
        DataFault::TooManyCells => Stop::Refused(Refusal::TooManyCombinations { file: 1 }),
        DataFault::TotalTooLarge => Stop::Refused(Refusal::TotalTooLarge { file: 1 }),
        DataFault::NoCell => Stop::Refused(Refusal::NoCell { file: 1 }),
    }
}

/// The dataset that the text of the first file says. The text is dropped.
fn dataset_text(alloc: Global, text: Body) -> Result<Dataset, Stop>
    ensures dataset { Follows result (dataset_text text) }
    ensures own { blames result ≡ false }
{
    match read_dataset(alloc, text.as_slice()) {
        Ok(dataset) => Ok(dataset),
        Err(fault) => Err(data_stop(fault)),
    }
}

/// The dataset in the file of a name.
fn dataset_file<F: Files>(alloc: Global, files: &mut F, file: &Word<'_>) -> Result<Dataset, Stop>
    ensures does { DoesFiles (F.held files.old) (F.held files.new)
        (F.faults files.old) (F.faults files.new)
        result (dataset_file file.now) }
{
    let text = read_file(alloc, files, file, 1)?;
    dataset_text(alloc, text)
}

/// The written form of a dataset.
fn written_form(alloc: Global, dataset: &Dataset) -> Result<Body, OutOfMemory>
    ensures { IfOk result (λ body. body ≡ written dataset.now) }
{
    Ok(Body::of(write_dataset(alloc, dataset)?))
}

/// The line of the number of cells and the sum of their counts.
fn cells_line(alloc: Global, dataset: &Dataset) -> Result<Body, AllocError>
    ensures { IfOk result (λ line. line ≡ cells_line dataset.now) }
{
    let cells = dataset.cells();
    let total = dataset.total();
    Ok(Body::of_line(format!(in alloc; "cells {cells} total {total}\n")?))
}

/// A dataset is read from a file and kept in its written form.
pub fn plan<'a, F: Files, K: Keeper>(
    alloc: Global,
    files: &mut F,
    keeper: &mut K,
    name: &NameWord<'a>,
    file: &Word<'_>,
) -> Result<Plan<'a>, Stop>
    ensures does { Does
        (scene (F.held files.old) (F.faults files.old) (K.rows keeper.old) (K.faults keeper.old))
        (scene (F.held files.new) (F.faults files.new) (K.rows keeper.new) (K.faults keeper.new))
        result (dataset_plan name.now file.now) }
{
    let dataset = dataset_file(alloc, files, file)?;
    let body = written_form(alloc, &dataset)?;
    let line = cells_line(alloc, &dataset)?;
    keep(alloc, keeper, Kind::Dataset, name, None, body, line)
}
