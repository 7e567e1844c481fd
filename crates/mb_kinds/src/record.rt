//! The record text of a model.

ghost use Rattle.std.specs.Prelude.{◌≡◌, ◌≤◌, ◌+◌, ◌*◌, length};
ghost use Rattle.std.specs.String.{string_bytes};
ghost use Rattle.mb_kinds.specs.RecordText.{model_in, record_of};
ghost use Rattle.mb_text.specs.Faults.{or_line};
ghost use Rattle.mb_matrix.specs.Faults.{matrix_of};
ghost use Rattle.mb_tables.specs.Answers.{Gives};
ghost use Rattle.mb_tables.specs.Limits.{most_cells};
ghost use Rattle.mb_tables.specs.Rows.{array_of};
ghost use Rattle.mb_text.specs.Lines.{lines};
ghost use Rattle.mb_text.specs.RecordLines.{record_cause};

use crate::model::Model;
use crate::record_head::read_sizes;
use crate::record_measure::read_measure;
use crate::record_rows::read_rows;
use mb_matrix::{Matrix, MatrixFault};
use mb_text::{RecordFault, read_exactly, read_name};
use std::alloc::Global;

/// The design matrix of these entries, which is wrong at the line of this number where it is
/// refused.
fn matrix_of(
    alloc: Global,
    rows: u32,
    cells: u32,
    entries: &[i32],
    number: u32,
) -> Result<Matrix, RecordFault>
    requires { length entries.now ≡ rows * cells }
    ensures { Gives record_cause (λ m. m) result
        (or_line number (matrix_of (array_of cells rows entries.now))) }
{
    match Matrix::try_new(alloc, rows, cells, entries) {
        Ok(matrix) => Ok(matrix),
        Err(MatrixFault::OutOfMemory) => Err(RecordFault::OutOfMemory),
        Err(MatrixFault::TooManyCells) => Err(RecordFault::Text { line: number }),
        Err(MatrixFault::TooManyMargins) => Err(RecordFault::Text { line: number }),
        Err(MatrixFault::Negative { row: _, cell: _ }) => Err(RecordFault::Text { line: number }),
        Err(MatrixFault::EntryTooLarge { row: _, cell: _ }) => {
            Err(RecordFault::Text { line: number })
        }
        Err(MatrixFault::ZeroColumn { cell: _ }) => Err(RecordFault::Text { line: number }),
    }
}

/// The model of a matrix of these sizes, from the line of this number on to the end of the text.
#[tactic(auto, unfolding(crate::specs::RecordText::model_in))]
fn read_model_lines(
    alloc: Global,
    text: &[u8],
    sizes: (u32, u32),
    number: u32,
) -> Result<Model, RecordFault>
    requires some { 1 ≤ number }
    requires first { number ≤ most_cells }
    requires rows { sizes.0 ≤ most_cells }
    requires cells { sizes.1 ≤ most_cells }
    ensures { Gives record_cause (λ m. m) result (model_in number sizes (lines text.now)) }
{
    let (rows, cells) = sizes;
    let (entries, text) = read_rows(alloc, text, rows, cells, number)?;
    let matrix = matrix_of(alloc, rows, cells, entries.as_slice(), number + rows - 1)?;
    let measure = read_measure(alloc, text, &matrix, number + rows)?;
    Ok(Model::new(matrix, measure))
}

/// The name of the dataset and the model that a record text says.
///
/// A text that is the record of none is refused at its first wrong line, from 1. Where each line is
/// right by itself and the whole is refused, this is the last row of the matrix for the matrix, the
/// line of the scale for the scale, and that of the base for the base.
#[tactic(auto, unfolding(crate::specs::RecordText::record_of))]
pub fn read_model_record(alloc: Global, text: &[u8]) -> Result<(String, Model), RecordFault>
    ensures { Gives record_cause (λ p. record { dataset = string_bytes p.0; model = p.1 }) result
        (record_of text.now) }
{
    let text = read_exactly(text, b"model 1", 1)?;
    let (dataset, text) = read_name(alloc, text, b"dataset", 2)?;
    let (sizes, text) = read_sizes(alloc, text, 3)?;
    let model = read_model_lines(alloc, text, sizes, 4)?;
    Ok((dataset, model))
}
