//! The analysis that a report's text says.

ghost use Rattle.std.specs.Prelude.{◌≡◌, IfOk};
ghost use Rattle.std.specs.String.{string_bytes};
ghost use Rattle.mb_reports.specs.Analysed.{report_on};
ghost use Rattle.mb_reports.specs.Report.{IsReport};
ghost use Rattle.mb_reports.specs.ReportText.{counts_in, names_in, p_value_in, report_of};
ghost use Rattle.mb_tables.specs.Answers.{Gives};
ghost use Rattle.mb_text.specs.Lines.{lines};
ghost use Rattle.mb_text.specs.RecordLines.{record_cause};

use crate::analysis::Analysis;
use crate::report_lines::{
    read_decimals, read_fraction, read_observed, read_rings, read_tables, read_weight,
};
use mb_tables::Table;
use mb_text::{RecordFault, read_end, read_name};
use std::alloc::Global;

/// The names of the analysis, its basis, its model and its dataset, and the text after their lines.
#[tactic(auto, unfolding(crate::specs::ReportText::names_in))]
fn read_names(
    alloc: Global,
    text: &[u8],
) -> Result<((String, String, String, String), &[u8]), RecordFault>
    ensures { Gives record_cause (λ p. (
      (
        string_bytes p.0.0,
        string_bytes p.0.1,
        string_bytes p.0.2,
        string_bytes p.0.3,
      ),
      lines p.1.now,
    )) result
        (names_in (lines text.now)) }
{
    let (name, text) = read_name(alloc, text, b"analysis", 1)?;
    let (basis, text) = read_name(alloc, text, b"basis", 2)?;
    let (model, text) = read_name(alloc, text, b"model", 3)?;
    let (dataset, text) = read_name(alloc, text, b"dataset", 4)?;
    Ok(((name, basis, model, dataset), text))
}

/// The observed table and the sizes of the rings, and the text after their lines.
#[tactic(auto, unfolding(crate::specs::ReportText::counts_in))]
fn read_counts(alloc: Global, text: &[u8]) -> Result<((Table, Vec<u32>), &[u8]), RecordFault>
    ensures { Gives record_cause (λ p. ((p.0.0, p.0.1.items), lines p.1.now)) result
        (counts_in (lines text.now)) }
{
    let (observed, text) = read_observed(alloc, text, 5)?;
    let (tables, text) = read_tables(text, 6)?;
    let (rings, text) = read_rings(alloc, text, tables, 7)?;
    Ok(((observed, rings), text))
}

/// The weight of the observed table and the two sums of the exact p-value, to the end of the text.
#[tactic(auto, unfolding(crate::specs::ReportText::p_value_in))]
fn read_p_value(text: &[u8]) -> Result<(u128, (u128, u128)), RecordFault>
    ensures { Gives record_cause (λ p. p) result (p_value_in (lines text.now)) }
{
    let (weight, text) = read_weight(text, 8)?;
    let (sums, text) = read_fraction(text, weight, 9)?;
    let text = read_decimals(text, sums, 10)?;
    read_end(text, 11)?;
    Ok((weight, sums))
}

/// The analysis that the text of a report says.
///
/// A text that is no report is refused at its first wrong line, from 1. Where the number of tables
/// isn't that of the rings, this is the line of the rings; a fraction that doesn't fit the weight,
/// and decimals that don't fit the fraction, are wrong at their own lines.
#[tactic(auto, unfolding(crate::specs::ReportText::report_of))]
pub fn read_report(alloc: Global, text: &[u8]) -> Result<Analysis, RecordFault>
    ensures report { Gives record_cause report_on result (report_of text.now) }
    ensures sound { IfOk result (λ analysis. IsReport (report_on analysis)) }
{
    let ((name, basis, model, dataset), text) = read_names(alloc, text)?;
    let ((observed, rings), text) = read_counts(alloc, text)?;
    let (weight, (below, whole)) = read_p_value(text)?;
    Ok(Analysis {
        name,
        basis,
        model,
        dataset,
        observed,
        rings,
        weight,
        below,
        whole,
    })
}
