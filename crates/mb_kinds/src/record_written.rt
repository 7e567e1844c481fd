//! The written form of a model record.

ghost use Rattle.std.specs.Fmt.{decimal};
ghost use Rattle.std.specs.Prelude.{◌≡◌, ◌++◌, ◌∷◌, [], IfOk, OnOk, codes};
ghost use Rattle.mb_kinds.specs.Record.{scale_items, written_record};
ghost use Rattle.mb_matrix.specs.Measure.{RowMargins, Total};
ghost use Rattle.mb_matrix.specs.Scheme.{scheme_of};
ghost use Rattle.mb_text.specs.Lines.{line};
ghost use Rattle.mb_text.specs.Name.{IsName};

use crate::model::Model;
use mb_matrix::Scale;
use mb_moves::push_rows;
use mb_tables::OutOfMemory;
use mb_text::{push_text, push_word_line};
use std::alloc::Global;

/// Puts the lines that begin a record at the end of a text.
fn push_head(out: &mut Vec<u8>, dataset: &str, rows: u32, cells: u32) -> Result<(), OutOfMemory>
    ensures { OnOk result (out.new.items ≡ out.old.items
        ++ (line (codes "model" ∷ codes "1" ∷ [])
        ++ (line (codes "dataset" ∷ dataset.now ∷ [])
        ++ line (codes "matrix" ∷ decimal rows ∷ decimal cells ∷ [])))) }
{
    push_text(out, b"model 1\n")?;
    push_text(out, b"dataset ")?;
    push_text(out, dataset.as_bytes())?;
    push_text(out, b"\n")?;
    push_word_line(out, b"matrix", &[rows, cells])?;
    Ok(())
}

/// Puts the line of the scale of all cells at the end of a text.
fn push_total(out: &mut Vec<u8>) -> Result<(), OutOfMemory>
    ensures { OnOk result (out.new.items ≡ out.old.items ++ line (scale_items Total)) }
{
    push_text(out, b"scale all\n")?;
    Ok(())
}

/// Puts the line of a scale of rows at the end of a text.
fn push_row_margins(out: &mut Vec<u8>, rows: &[u32]) -> Result<(), OutOfMemory>
    ensures { OnOk result
        (out.new.items ≡ out.old.items ++ line (scale_items (RowMargins rows.now))) }
{
    push_text(out, b"scale ")?;
    push_word_line(out, b"rows", rows)?;
    Ok(())
}

/// Puts the line of a scale at the end of a text.
fn push_scale(out: &mut Vec<u8>, scale: &Scale) -> Result<(), OutOfMemory>
    ensures { OnOk result
        (out.new.items ≡ out.old.items ++ line (scale_items (scheme_of scale.now))) }
{
    match scale {
        Scale::All => push_total(out),
        Scale::Rows(rows) => push_row_margins(out, rows.as_slice()),
    }
}

/// The record text of a model of a dataset: the one text that `read_model_record` reads as both.
pub fn write_model(alloc: Global, dataset: &str, model: &Model) -> Result<Vec<u8>, OutOfMemory>
    requires { IsName dataset.now }
    ensures { IfOk result (λ text. text.items
        ≡ written_record (record { dataset = dataset.now; model = model.now })) }
{
    let mut out = Vec::new(alloc);
    let matrix = model.matrix();
    let measure = model.measure();
    push_head(&mut out, dataset, matrix.rows(), matrix.cols())?;
    push_rows(&mut out, matrix)?;
    push_scale(&mut out, measure.scale())?;
    push_word_line(&mut out, b"base", measure.bases())?;
    push_text(&mut out, b"end\n")?;
    Ok(out)
}
