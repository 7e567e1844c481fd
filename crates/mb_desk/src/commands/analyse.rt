//! `analyse NAME BASIS [--limit L] [--workers W]`.
ghost use Rattle.std.specs.Prelude.{◌≡◌, ◌≤◌, IfOk, OnOk, false, length, true};
ghost use Rattle.mb_data.specs.CrossTable.{counts};
ghost use Rattle.mb_desk.specs.AnalyseCommand.{
  analyse_plan,
  modelled,
  of_one_matrix,
  of_one_size,
  records_named,
  records_tested,
  report_named,
  report_of,
  reported,
  same_design,
};
ghost use Rattle.mb_desk.specs.Decision.{DoesRows, Follows, blames, stop_cause};
ghost use Rattle.mb_desk.specs.ExactTest.{numbers_in};
ghost use Rattle.mb_desk.specs.Needs.{RowsAlone, Touches};
ghost use Rattle.mb_reports.specs.Report.{report_text};
ghost use Rattle.mb_rings.specs.Walk.{most_tables};
ghost use Rattle.mb_tables.specs.Answers.{Gives};

use crate::commands::generate::numbers_stop;
use crate::exact_test::{Figures, numbers};
use crate::limits::Workers;
use crate::plans::{Plan, Stop};
use crate::records::{find_basis, find_dataset, find_model, keep};
use crate::refusals::Refusal;
use crate::requests::AnalyseWords;
use mb_certificate::Certificate;
use mb_data::Dataset;
use mb_kinds::Model;
use mb_matrix::Matrix;
use mb_outside::{Gate, Keeper};
use mb_registry::{Body, Kind, Name, Text};
use mb_reports::{Analysis, report};
use mb_tables::OutOfMemory;
use std::alloc::{AllocError, Global};
use std::thread::Threads;

/// The records of an analysis.
#[derive(Drop)]
pub struct Records {
    /// The name of the model.
    pub model_name: Name,
    /// The certificate of the basis.
    pub certificate: Certificate,
    /// The name of the dataset.
    pub dataset_name: Name,
    /// The model.
    pub model: Model,
    /// The dataset.
    pub dataset: Dataset,
}

/// The model of a name, and before it the name of its dataset, and after it this dataset.
fn find_modelled<K: Keeper>(
    alloc: Global,
    keeper: &mut K,
    model: &str,
) -> Result<(Name, Model, Dataset), Stop>
    ensures does { DoesRows (K.rows keeper.old) (K.rows keeper.new)
        (K.faults keeper.old) (K.faults keeper.new)
        result (modelled model.now) }
{
    let (name, model) = find_model(alloc, keeper, model)?;
    match find_dataset(alloc, keeper, name.text()) {
        Ok(dataset) => Ok((name, model, dataset)),
        Err(stop) => Err(stop),
    }
}

/// The records of an analysis by the basis of a name.
fn find_records<K: Keeper>(alloc: Global, keeper: &mut K, basis: &str) -> Result<Records, Stop>
    ensures does { DoesRows (K.rows keeper.old) (K.rows keeper.new)
        (K.faults keeper.old) (K.faults keeper.new)
        result (records_named basis.now) }
{
    let (model_name, certificate) = find_basis(alloc, keeper, basis)?;
    match find_modelled(alloc, keeper, model_name.text()) {
        Ok((dataset_name, model, dataset)) => Ok(Records {
            model_name,
            certificate,
            dataset_name,
            model,
            dataset,
        }),
        Err(stop) => Err(stop),
    }
}

/// Whether two design matrices are the same.
fn is_same(a: &Matrix, b: &Matrix) -> bool
    ensures { result ≡ same_design a.now b.now }
{
    if a.rows() != b.rows() {
        return false;
    }
    if a.cols() != b.cols() {
        return false;
    }
    for row in 0..a.rows() {
        if a.row(row) != b.row(row) {
            return false;
        }
    }
    true
}

/// Tests that the certificate is of the model's matrix.
fn test_matrix(alloc: Global, basis: &str, records: &Records) -> Result<(), Stop>
    ensures decided { Follows result (of_one_matrix basis.now records.now) }
    ensures same { OnOk result
        (same_design records.now.certificate.matrix records.now.model.matrix ≡ true) }
    ensures own { blames result ≡ false }
{
    if is_same(records.certificate.matrix(), records.model.matrix()) {
        return Ok(());
    }
    Err(Stop::Refused(Refusal::BadRecord {
        kind: Kind::Basis,
        name: Text::copy_of(alloc, basis)?,
    }))
}

/// Tests that the model has the dataset's cells.
fn test_size(alloc: Global, records: &Records) -> Result<(), Stop>
    ensures decided { Follows result (of_one_size records.now) }
    ensures same { OnOk result
        (length records.now.model.matrix.columns ≡ length (counts records.now.dataset.entries)) }
    ensures own { blames result ≡ false }
{
    if records.model.matrix().cols() == records.dataset.cells() {
        return Ok(());
    }
    Err(Stop::Refused(Refusal::BadRecord {
        kind: Kind::Model,
        name: Text::copy_of(alloc, records.model_name.text())?,
    }))
}

/// The exact test of the dataset's table, over records that fit each other.
fn test<R: Threads + Sync, G: Gate + Sync>(
    rt: &R,
    alloc: Global,
    limit: u32,
    workers: &Workers,
    records: &Records,
    gate: &G,
) -> Result<Figures, Stop>
    requires matrix { same_design records.now.certificate.matrix records.now.model.matrix ≡ true }
    requires cells { length records.now.model.matrix.columns
        ≡ length (counts records.now.dataset.entries) }
    requires some { 1 ≤ limit }
    requires small { limit ≤ most_tables }
    ensures numbers { Gives stop_cause numbers_in result (records_tested limit records.now) }
    ensures rings { IfOk result (λ figures. 1 ≤ length figures.rings.items) }
    ensures order { IfOk result (λ figures.
        (1 ≤ figures.weight) × (figures.weight ≤ figures.below) × (figures.below ≤ figures.whole)) }
    ensures own { blames result ≡ false }
{
    let _model = records.model.matrix();
    let _parts = records.certificate.matrix();
    let _cells = records.dataset.cells();
    let observed = match records.dataset.table(alloc) {
        Ok(observed) => observed,
        Err(_) => return Err(Stop::Memory),
    };
    match numbers(
        rt,
        alloc,
        &records.certificate,
        records.model.measure(),
        &observed,
        limit,
        workers.count(),
        gate,
    ) {
        Ok(figures) => Ok(figures),
        Err(fault) => Err(numbers_stop(fault)),
    }
}

/// The text of the report on figures.
fn write_report(
    alloc: Global,
    words: &AnalyseWords<'_>,
    records: &Records,
    figures: Figures,
) -> Result<Body, OutOfMemory>
    requires rings { 1 ≤ length figures.rings.items }
    requires order { (1 ≤ figures.weight) × (figures.weight ≤ figures.below)
        × (figures.below ≤ figures.whole) }
    ensures { IfOk result (λ text.
        text ≡ report_text (report_of words.now records.now (numbers_in figures))) }
{
    let _cells = records.dataset.cells();
    let analysis = Analysis {
        name: String::from_str(alloc, words.name.as_str())?,
        basis: String::from_str(alloc, words.basis.as_str())?,
        model: String::from_str(alloc, records.model_name.text())?,
        dataset: String::from_str(alloc, records.dataset_name.text())?,
        observed: records.dataset.table(alloc)?,
        rings: figures.rings,
        weight: figures.weight,
        below: figures.below,
        whole: figures.whole,
    };
    Ok(Body::of(report(alloc, &analysis)?))
}

/// The text of the report on the records, which have to fit each other.
fn report_text<R: Threads + Sync, G: Gate + Sync>(
    rt: &R,
    alloc: Global,
    words: &AnalyseWords<'_>,
    records: &Records,
    gate: &G,
) -> Result<Body, Stop>
    ensures report { Follows result (reported words.now records.now) }
    ensures own { blames result ≡ false }
{
    test_matrix(alloc, words.basis.as_str(), records)?;
    test_size(alloc, records)?;
    let figures = test(
        rt,
        alloc,
        words.limit.tables(),
        &words.workers,
        records,
        gate,
    )?;
    let text = write_report(alloc, words, records, figures)?;
    Ok(text)
}

/// The text of the report on the records by the basis that is named.
fn report_named<R: Threads + Sync, K: Keeper, G: Gate + Sync>(
    rt: &R,
    alloc: Global,
    keeper: &mut K,
    words: &AnalyseWords<'_>,
    gate: &G,
) -> Result<Body, Stop>
    ensures does { DoesRows (K.rows keeper.old) (K.rows keeper.new)
        (K.faults keeper.old) (K.faults keeper.new)
        result (report_named words.now) }
{
    let records = find_records(alloc, keeper, words.basis.as_str())?;
    report_text(rt, alloc, words, &records, gate)
}

/// A text again.
fn copy_of(alloc: Global, text: &Body) -> Result<Body, AllocError>
    ensures { IfOk result (λ copy. copy ≡ text.now) }
{
    Ok(Body::of(Vec::from_slice(alloc, text.as_slice())?))
}

/// The exact test of a dataset by a basis, kept and printed.
pub fn plan<'a, R: Threads + Sync, K: Keeper, G: Gate + Sync>(
    rt: &R,
    alloc: Global,
    keeper: &mut K,
    words: &AnalyseWords<'a>,
    gate: &G,
) -> Result<Plan<'a>, Stop>
    ensures does { DoesRows (K.rows keeper.old) (K.rows keeper.new)
        (K.faults keeper.old) (K.faults keeper.new)
        result (analyse_plan words.now) }
    ensures touches { IfOk result (λ plan. Touches RowsAlone plan.change) }
{
    let report = report_named(rt, alloc, keeper, words, gate)?;
    let lines = copy_of(alloc, &report)?;
    let basis = Some((Kind::Basis, words.basis.as_str()));
    keep(
        alloc,
        keeper,
        Kind::Analysis,
        &words.name,
        basis,
        report,
        lines,
    )
}
