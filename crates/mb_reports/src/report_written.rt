//! The text of a report.

ghost use Rattle.std.specs.Fmt.{decimal};
ghost use Rattle.std.specs.List.{flat_map};
ghost use Rattle.std.specs.Prelude.{◌≡◌, ◌++◌, ◌∷◌, ◌≤◌, [], IfOk, OnOk, codes, map, sum};
ghost use Rattle.std.specs.String.{string_bytes};
ghost use Rattle.mb_reports.specs.Analysed.{report_on};
ghost use Rattle.mb_reports.specs.Report.{IsReport, fraction_item, report_text};
ghost use Rattle.mb_text.specs.Lines.{line};
ghost use Rattle.mb_weights.specs.Decimals.{decimals_of};

use crate::analysis::Analysis;
use crate::report_lines::tables_in_all;
use mb_tables::OutOfMemory;
use mb_text::{push_number, push_text, push_word_item, push_word_line};
use mb_weights::decimals;
use std::alloc::Global;

/// Puts the lines of the four names at the end of a text.
fn push_names(out: &mut Vec<u8>, analysis: &Analysis) -> Result<(), OutOfMemory>
    ensures { OnOk result (out.new.items ≡ out.old.items
        ++ (line (codes "analysis" ∷ string_bytes analysis.now.name ∷ [])
        ++ (line (codes "basis" ∷ string_bytes analysis.now.basis ∷ [])
        ++ (line (codes "model" ∷ string_bytes analysis.now.model ∷ [])
        ++ line (codes "dataset" ∷ string_bytes analysis.now.dataset ∷ []))))) }
{
    push_word_item(out, b"analysis", analysis.name.as_bytes())?;
    push_word_item(out, b"basis", analysis.basis.as_bytes())?;
    push_word_item(out, b"model", analysis.model.as_bytes())?;
    push_word_item(out, b"dataset", analysis.dataset.as_bytes())
}

/// Puts the lines of the observed table and of the rings at the end of a text.
fn push_counts(out: &mut Vec<u8>, observed: &[u32], rings: &[u32]) -> Result<(), OutOfMemory>
    ensures { OnOk result (out.new.items ≡ out.old.items
        ++ (line (codes "observed" ∷ map decimal observed.now)
        ++ (line (codes "tables" ∷ decimal (sum rings.now) ∷ [])
        ++ line (codes "rings" ∷ map decimal rings.now)))) }
{
    push_word_line(out, b"observed", observed)?;
    push_word_line(out, b"tables", &[tables_in_all(rings)])?;
    push_word_line(out, b"rings", rings)
}

/// Puts the line of a fraction at the end of a text.
fn push_fraction(out: &mut Vec<u8>, below: u128, whole: u128) -> Result<(), OutOfMemory>
    ensures { OnOk result (out.new.items ≡ out.old.items
        ++ line (codes "fraction" ∷ fraction_item (below, whole) ∷ [])) }
{
    push_text(out, b"fraction ")?;
    push_number(out, below)?;
    push_text(out, b"/")?;
    push_number(out, whole)?;
    push_text(out, b"\n")?;
    Ok(())
}

/// Puts the lines of a weight and an exact p-value at the end of a text.
fn push_p_value(
    out: &mut Vec<u8>,
    weight: u128,
    below: u128,
    whole: u128,
) -> Result<(), OutOfMemory>
    requires above { 1 ≤ whole }
    requires at_most { below ≤ whole }
    ensures { OnOk result (out.new.items ≡ out.old.items
        ++ (line (codes "weight" ∷ decimal weight ∷ [])
        ++ (line (codes "fraction" ∷ fraction_item (below, whole) ∷ [])
        ++ line (codes "decimals" ∷ decimals_of below whole ∷ [])))) }
{
    push_word_line(out, b"weight", &[weight])?;
    push_fraction(out, below, whole)?;
    push_word_item(out, b"decimals", &decimals(below, whole))
}

/// The text of the report on an analysis: the one text that `read_report` reads as it.
///
/// The four names have the form of names, the table has a cell, there is a ring, and the weight is
/// at least 1, at most `below`, which is at most `whole`.
pub fn report(alloc: Global, analysis: &Analysis) -> Result<Vec<u8>, OutOfMemory>
    requires { IsReport (report_on analysis.now) }
    ensures { IfOk result (λ text. text.items ≡ report_text (report_on analysis.now)) }
{
    let mut out = Vec::new(alloc);
    push_names(&mut out, analysis)?;
    push_counts(
        &mut out,
        analysis.observed.as_slice(),
        analysis.rings.as_slice(),
    )?;
    push_p_value(&mut out, analysis.weight, analysis.below, analysis.whole)?;
    Ok(out)
}
