//! The bodies of records, both ways.
ghost use Rattle.std.specs.Option.{option_map};
ghost use Rattle.std.specs.Prelude.{◌≡◌, IfOk, IfSome, string_bytes};
ghost use Rattle.mb_registry.specs.Bodies.{CanBeWritten, analysis_body, basis_body, basis_head, basis_text, body_of, certificate_in, dataset_body, model_body, record_of};
ghost use Rattle.mb_registry.specs.RecordsSeen.{record_value};
ghost use Rattle.mb_reports.specs.Analysed.{report_on};
ghost use Rattle.mb_reports.specs.Report.{IsReport};
ghost use Rattle.mb_tables.specs.Answers.{Gives};
ghost use Rattle.mb_text.specs.Lines.{lines};
ghost use Rattle.mb_text.specs.RecordLines.{record_cause};

use crate::kinds::Kind;
use crate::names::Name;
use crate::records::Record;
use crate::texts::Body;
use mb_certificate::{Certificate, ReadFault, read, write};
use mb_data::{DataFault, Dataset, read_dataset, write_dataset};
use mb_kinds::{Model, read_model_record, write_model};
use mb_reports::{Analysis, read_report, report};
use mb_tables::OutOfMemory;
use mb_text::{RecordFault, push_text, push_word_item, read_exactly, read_name};
use std::alloc::Global;

/// The body of a basis: the name of its model and its certificate.
pub fn write_basis(
    alloc: Global,
    model: &str,
    certificate: &Certificate,
) -> Result<Body, OutOfMemory>
    ensures { IfOk result (λ body. body ≡ basis_text model.now certificate.now) }
{
    let text = write(alloc, certificate)?;
    let mut out = Vec::new(alloc);
    push_word_item(&mut out, b"basis", b"1")?;
    push_word_item(&mut out, b"model", model.as_bytes())?;
    push_text(&mut out, text.as_slice())?;
    Ok(Body::of(out))
}

/// The body of a record: the one text that `record_of` reads as it.
///
/// An analysis has to be one whose report can be written.
pub fn body_of(alloc: Global, entry: &Record) -> Result<Body, OutOfMemory>
    requires { CanBeWritten (record_value entry.now) }
    ensures { IfOk result (λ body. body ≡ body_of (record_value entry.now)) }
{
    match entry {
        Record::Dataset(dataset) => Ok(Body::of(write_dataset(alloc, dataset)?)),
        Record::Model { dataset, model } => Ok(Body::of(write_model(
            alloc,
            dataset.text(),
            model,
        )?)),
        Record::Basis { model, certificate } => write_basis(alloc, model.text(), certificate),
        Record::Analysis(analysis) => Ok(Body::of(report(alloc, analysis)?)),
    }
}

/// The dataset that a body is, where it is the written form of one.
pub(crate) fn dataset_in(alloc: Global, body: &[u8]) -> Result<Option<Dataset>, OutOfMemory>
    ensures { IfOk result (λ found. found ≡ dataset_body body.now) }
{
    let dataset = match read_dataset(alloc, body) {
        Ok(dataset) => dataset,
        Err(DataFault::OutOfMemory) => return Err(OutOfMemory),
        Err(_) => return Ok(None),
    };
    let text = write_dataset(alloc, &dataset)?;
    if body == text.as_slice() {
        Ok(Some(dataset))
    } else {
        Ok(None)
    }
}

/// The name of its dataset and the model that a body is.
#[tactic(auto, using(crate::proofs::RecordTexts::model_named))]
pub(crate) fn model_in(alloc: Global, body: &[u8]) -> Result<Option<(Name, Model)>, OutOfMemory>
    ensures { IfOk result (λ found. found ≡ model_body body.now) }
{
    match read_model_record(alloc, body) {
        Ok((dataset, model)) => Ok(Some((Name::of(dataset), model))),
        Err(RecordFault::Text { line: _ }) => Ok(None),
        Err(RecordFault::OutOfMemory) => Err(OutOfMemory),
    }
}

/// The name of its model, and the text after the line that says it.
#[tactic(auto, unfolding(crate::specs::Bodies::basis_head))]
fn read_head(alloc: Global, body: &[u8]) -> Result<(String, &[u8]), RecordFault>
    ensures { Gives record_cause (λ p. (string_bytes p.0, lines p.1.now)) result
        (basis_head body.now) }
{
    let rest = read_exactly(body, b"basis 1", 1)?;
    read_name(alloc, rest, b"model", 2)
}

/// The certificate that a text is.
#[tactic(auto, using(crate::proofs::BasisTexts::certificate_lines))]
fn certificate_in(alloc: Global, text: &[u8]) -> Result<Option<Certificate>, OutOfMemory>
    ensures { IfOk result (λ found. found ≡ certificate_in (lines text.now)) }
{
    match read(alloc, text) {
        Ok(certificate) => Ok(Some(certificate)),
        Err(ReadFault::Text { line: _ }) => Ok(None),
        Err(ReadFault::OutOfMemory) => Err(OutOfMemory),
    }
}

/// The name of its model and the certificate that a body is.
pub(crate) fn basis_in(
    alloc: Global,
    body: &[u8],
) -> Result<Option<(Name, Certificate)>, OutOfMemory>
    ensures { IfOk result (λ found. found ≡ basis_body body.now) }
{
    let (model, rest) = match read_head(alloc, body) {
        Ok(head) => head,
        Err(RecordFault::Text { line: _ }) => return Ok(None),
        Err(RecordFault::OutOfMemory) => return Err(OutOfMemory),
    };
    match certificate_in(alloc, rest)? {
        None => Ok(None),
        Some(certificate) => Ok(Some((Name::of(model), certificate))),
    }
}

/// The analysis that a body is.
pub(crate) fn analysis_in(alloc: Global, body: &[u8]) -> Result<Option<Analysis>, OutOfMemory>
    ensures report { IfOk result (λ found. option_map report_on found ≡ analysis_body body.now) }
    ensures sound { IfOk result (λ found.
        IfSome found (λ analysis. IsReport (report_on analysis))) }
{
    match read_report(alloc, body) {
        Ok(analysis) => Ok(Some(analysis)),
        Err(RecordFault::Text { line: _ }) => Ok(None),
        Err(RecordFault::OutOfMemory) => Err(OutOfMemory),
    }
}

/// The record of a kind that a body is, if it is one: it is exactly where it is the body of a
/// record of this kind.
pub fn record_of(alloc: Global, kind: Kind, body: &[u8]) -> Result<Option<Record>, OutOfMemory>
    ensures { IfOk result (λ found. option_map record_value found ≡ record_of kind body.now) }
{
    match kind {
        Kind::Dataset => match dataset_in(alloc, body)? {
            None => Ok(None),
            Some(dataset) => Ok(Some(Record::Dataset(dataset))),
        },
        Kind::Model => match model_in(alloc, body)? {
            None => Ok(None),
            Some((dataset, model)) => Ok(Some(Record::Model { dataset, model })),
        },
        Kind::Basis => match basis_in(alloc, body)? {
            None => Ok(None),
            Some((model, certificate)) => Ok(Some(Record::Basis { model, certificate })),
        },
        Kind::Analysis => match analysis_in(alloc, body)? {
            None => Ok(None),
            Some(analysis) => Ok(Some(Record::Analysis(analysis))),
        },
    }
}
