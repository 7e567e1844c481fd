//! Design matrices, written as lines and as matrix files.

ghost use Rattle.std.specs.List.{flat_map};
ghost use Rattle.std.specs.Prelude.{◌≡◌, ◌++◌, IfOk, OnOk};
ghost use Rattle.mb_moves.specs.Written.{matrix_file, row_lines};
ghost use Rattle.mb_text.specs.Lines.{line};

use mb_matrix::Matrix;
use mb_tables::OutOfMemory;
use mb_text::push_line;
use std::alloc::Global;

/// Adds the rows of a design matrix to a text, each a line.
pub fn push_rows(out: &mut Vec<u8>, matrix: &Matrix) -> Result<(), OutOfMemory>
    ensures { OnOk result
        (out.new.items ≡ out.old.items ++ flat_map line (row_lines matrix.now)) }
{
    for row in 0..matrix.rows() {
        push_line(out, matrix.row(row))?;
    }
    Ok(())
}

/// The matrix file of a design matrix: a line with the numbers of its rows and cells, and a line
/// for each row.
pub fn write_design(alloc: Global, matrix: &Matrix) -> Result<Vec<u8>, OutOfMemory>
    ensures { IfOk result (λ text. text.items ≡ matrix_file matrix.now) }
{
    let mut out = Vec::new(alloc);
    push_line(&mut out, &[matrix.rows(), matrix.cols()])?;
    push_rows(&mut out, matrix)?;
    Ok(out)
}
