//! `model NAME DATASET FILE [--matrix FILE]`.
ghost use Rattle.std.specs.Option.{option_map};
ghost use Rattle.std.specs.Prelude.{◌≡◌, IfOk, false};
ghost use Rattle.mb_desk.specs.Decision.{Does, DoesFiles, DoesRows, Follows, blames, scene};
ghost use Rattle.mb_desk.specs.ModelCommand.{
  kind_stop,
  margins_line,
  measure_stop,
  model_added,
  model_kept,
  model_plan,
  model_read,
  model_text,
  model_texts,
  second_text,
};
ghost use Rattle.mb_kinds.specs.Record.{written_record};
ghost use Rattle.mb_registry.specs.Bodies.{model_record};

use crate::judging::text_stop;
use crate::plans::{Plan, Stop};
use crate::reading::read_file;
use crate::records::{keep, look_stop};
use crate::refusals::Refusal;
use crate::requests::ModelWords;
use crate::start::matrix_stop;
use crate::texts::{NameWord, Word};
use mb_data::Dataset;
use mb_kinds::{KindFault, Model, read_model, write_model};
use mb_matrix::{Matrix, MeasureFault};
use mb_outside::{Files, Keeper};
use mb_registry::{Body, Kind, dataset as dataset_named};
use mb_tables::OutOfMemory;
use std::alloc::{AllocError, Global};

/// Why the work stops for the fault of a measure.
fn measure_stop(fault: MeasureFault) -> Stop
    ensures { result ≡ measure_stop fault }
{
    match fault {
        MeasureFault::OutOfMemory => Stop::Memory,
        MeasureFault::BadScaleRow { row } => Stop::Refused(Refusal::BadScaleRow { row }),
        MeasureFault::ScaleNotCover { cell } => Stop::Refused(Refusal::ScaleNotCover { cell }),
        MeasureFault::BadBase { cell } => Stop::Refused(Refusal::BadBase { cell }),
    }
}

/// Why the work stops for the fault of a model file on a dataset.
fn kind_stop(fault: KindFault) -> Stop
    ensures { result ≡ kind_stop fault }
{
    match fault {
        KindFault::OutOfMemory => Stop::Memory,
        KindFault::Toml => Stop::Refused(Refusal::Toml { file: 1 }),
        KindFault::UnknownKind => Stop::Refused(Refusal::UnknownKind),
        KindFault::MissingKey { key } => Stop::Refused(Refusal::MissingKey { key }),
        KindFault::UnknownFactor => Stop::Refused(Refusal::UnknownFactor),
        KindFault::EmptyGenerators => Stop::Refused(Refusal::EmptyGenerators),
        KindFault::NotTwoFactors => Stop::Refused(Refusal::NotTwoFactors),
        KindFault::NotBinary => Stop::Refused(Refusal::NotBinary),
        KindFault::MatrixText(fault) => text_stop(2, fault),
        KindFault::CellCount { matrix, cells } => Stop::Refused(Refusal::CellCount {
            matrix,
            data: cells,
        }),
        KindFault::Matrix(fault) => matrix_stop(fault),
        KindFault::Measure(fault) => measure_stop(fault),
    }
}

/// The text of the matrix file, if one is given.
fn second_text<F: Files>(
    alloc: Global,
    files: &mut F,
    file: &Option<Word<'_>>,
) -> Result<Option<Body>, Stop>
    ensures does { DoesFiles (F.held files.old) (F.held files.new)
        (F.faults files.old) (F.faults files.new)
        result (second_text file.now) }
{
    match file {
        None => Ok(None),
        Some(file) => Ok(Some(read_file(alloc, files, file, 2)?)),
    }
}

/// The texts of the model file and of the matrix file, read in order.
fn model_texts<F: Files>(
    alloc: Global,
    files: &mut F,
    words: &ModelWords<'_>,
) -> Result<(Body, Option<Body>), Stop>
    ensures does { DoesFiles (F.held files.old) (F.held files.new)
        (F.faults files.old) (F.faults files.new)
        result (model_texts words.now) }
{
    let text = read_file(alloc, files, &words.file, 1)?;
    let matrix = second_text(alloc, files, &words.matrix)?;
    Ok((text, matrix))
}

/// The bytes of a text, if there is one.
fn bytes_of(text: &Option<Body>) -> Option<&[u8]>
    ensures { option_map (λ bytes. bytes.now) result ≡ text.now }
{
    match text {
        None => None,
        Some(text) => Some(text.as_slice()),
    }
}

/// The model that the two texts say on a dataset. The texts are dropped.
fn model_text(alloc: Global, texts: (Body, Option<Body>), dataset: &Dataset) -> Result<Model, Stop>
    ensures model { Follows result (model_text texts dataset.now) }
    ensures own { blames result ≡ false }
{
    match read_model(alloc, texts.0.as_slice(), bytes_of(&texts.1), dataset) {
        Ok(model) => Ok(model),
        Err(fault) => Err(kind_stop(fault)),
    }
}

/// The model that the two texts say on the dataset of a name.
fn model_read<K: Keeper>(
    alloc: Global,
    keeper: &mut K,
    dataset: &NameWord<'_>,
    texts: (Body, Option<Body>),
) -> Result<Model, Stop>
    ensures does { DoesRows (K.rows keeper.old) (K.rows keeper.new)
        (K.faults keeper.old) (K.faults keeper.new)
        result (model_read dataset.now texts) }
{
    match dataset_named(alloc, keeper, dataset.as_str()) {
        Ok(table) => model_text(alloc, texts, &table),
        Err(fault) => Err(look_stop(fault)),
    }
}

/// The record of a model of the dataset of a name.
fn written_form(alloc: Global, dataset: &NameWord<'_>, model: &Model) -> Result<Body, OutOfMemory>
    ensures { IfOk result (λ body. body ≡ written_record (model_record dataset.now model.now)) }
{
    Ok(Body::of(write_model(alloc, dataset.as_str(), model)?))
}

/// The line of the numbers of margins and of cells.
fn margins_line(alloc: Global, matrix: &Matrix) -> Result<Body, AllocError>
    ensures { IfOk result (λ line. line ≡ margins_line matrix.now) }
{
    let margins = matrix.rows();
    let cells = matrix.cols();
    Ok(Body::of_line(format!(in alloc; "margins {margins} cells {cells}\n")?))
}

/// The record of a model of the dataset of a name, and the line that is printed. The model is
/// dropped.
fn record_and_line(
    alloc: Global,
    dataset: &NameWord<'_>,
    model: Model,
) -> Result<(Body, Body), OutOfMemory>
    ensures body { IfOk result (λ p. p.0 ≡ written_record (model_record dataset.now model)) }
    ensures line { IfOk result (λ p. p.1 ≡ margins_line model.matrix) }
{
    let body = written_form(alloc, dataset, &model)?;
    let line = margins_line(alloc, model.matrix())?;
    Ok((body, line))
}

/// The plan that keeps a model of the dataset of a name.
fn model_kept<'a, K: Keeper>(
    alloc: Global,
    keeper: &mut K,
    name: &NameWord<'a>,
    dataset: &NameWord<'_>,
    model: Model,
) -> Result<Plan<'a>, Stop>
    ensures does { DoesRows (K.rows keeper.old) (K.rows keeper.new)
        (K.faults keeper.old) (K.faults keeper.new)
        result (model_kept name.now dataset.now model) }
{
    let (body, line) = record_and_line(alloc, dataset, model)?;
    let reference = Some((Kind::Dataset, dataset.as_str()));
    keep(alloc, keeper, Kind::Model, name, reference, body, line)
}

/// The model that the two texts say on its dataset is kept.
fn model_added<'a, K: Keeper>(
    alloc: Global,
    keeper: &mut K,
    words: &ModelWords<'a>,
    texts: (Body, Option<Body>),
) -> Result<Plan<'a>, Stop>
    ensures does { DoesRows (K.rows keeper.old) (K.rows keeper.new)
        (K.faults keeper.old) (K.faults keeper.new)
        result (model_added words.now texts) }
{
    let model = model_read(alloc, keeper, &words.dataset, texts)?;
    model_kept(alloc, keeper, &words.name, &words.dataset, model)
}

/// A model of a dataset is read from a file and kept.
pub fn plan<'a, F: Files, K: Keeper>(
    alloc: Global,
    files: &mut F,
    keeper: &mut K,
    words: &ModelWords<'a>,
) -> Result<Plan<'a>, Stop>
    ensures does { Does
        (scene (F.held files.old) (F.faults files.old) (K.rows keeper.old) (K.faults keeper.old))
        (scene (F.held files.new) (F.faults files.new) (K.rows keeper.new) (K.faults keeper.new))
        result (model_plan words.now) }
{
    let texts = model_texts(alloc, files, words)?;
    model_added(alloc, keeper, words, texts)
}
