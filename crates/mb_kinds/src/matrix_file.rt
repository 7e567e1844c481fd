//! Models of kind `matrix`: any matrix file with a scale and a base.

ghost use Rattle.std.specs.Prelude.{◌≡◌, option_map};
ghost use Rattle.mb_kinds.specs.Kinds.{file_model, of_matrix_file, scheme_for};
ghost use Rattle.mb_kinds.specs.ModelText.{kind_cause};
ghost use Rattle.mb_kinds.specs.declared.kind_fault.KindFault.TheVariants as Fault;
ghost use Rattle.mb_matrix.specs.Scheme.{scheme_of};
ghost use Rattle.mb_moves.specs.GridText.{cause};
ghost use Rattle.mb_tables.specs.Answers.{Gives};
ghost use Rattle.toml.specs.View.{table_view};

use crate::building::{base_for, model_on};
use crate::kind_fault::{KindFault, ModelKey};
use crate::model::Model;
use crate::model_text::{ModelText, base_at, scale_at};
use mb_data::Dataset;
use mb_matrix::Scale;
use mb_moves::{GridFault, read_matrix};
use std::alloc::Global;

/// A fault of the matrix file, as one of the model.
fn of_file(fault: GridFault) -> KindFault
    ensures { kind_cause result ≡ option_map Fault.MatrixText (cause fault) }
{
    match fault {
        GridFault::OutOfMemory => KindFault::OutOfMemory,
        _ => KindFault::MatrixText(fault),
    }
}

/// The named rows, or all cells.
fn scale_for(rows: Option<Vec<u32>>) -> Scale
    ensures { scheme_of result ≡ scheme_for (option_map (λ v. v.items) rows) }
{
    match rows {
        Some(rows) => Scale::Rows(rows),
        None => Scale::All,
    }
}

/// The model of a matrix file.
fn file_model(
    alloc: Global,
    dataset: &Dataset,
    file: &[u8],
    scale: Option<Vec<u32>>,
    given: Option<Vec<u32>>,
) -> Result<Model, KindFault>
    ensures { Gives kind_cause (λ m. m) result (file_model dataset.now file.now
        (option_map (λ v. v.items) scale) (option_map (λ v. v.items) given)) }
{
    let grid = match read_matrix(alloc, file) {
        Ok(grid) => grid,
        Err(fault) => return Err(of_file(fault)),
    };
    let cells = dataset.cells();
    let width = grid.width();
    if width != cells {
        return Err(KindFault::CellCount {
            matrix: u64::from(width),
            cells,
        });
    }
    let base = base_for(alloc, cells, given)?;
    let rows = grid.row_count();
    model_on(
        alloc,
        rows,
        width,
        grid.as_slice(),
        scale_for(scale),
        base.as_slice(),
    )
}

/// The model of kind `matrix`, of the matrix file beside the model file.
pub(crate) fn of_matrix_file(
    alloc: Global,
    dataset: &Dataset,
    file: Option<&[u8]>,
    text: &ModelText,
) -> Result<Model, KindFault>
    ensures { Gives kind_cause (λ m. m) result (of_matrix_file dataset.now
        (option_map (λ f. f.now) file.entry) (table_view text.now)) }
{
    let Some(file) = file else {
        return Err(KindFault::MissingKey {
            key: ModelKey::Matrix,
        });
    };
    let scale = scale_at(alloc, text)?;
    let base = base_at(alloc, text)?;
    file_model(alloc, dataset, file, scale, base)
}
