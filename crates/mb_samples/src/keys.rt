//! Keys of the fiber of a table.

ghost use Rattle.std.specs.Prelude.{◌≡◌, IfOk, length};
ghost use Rattle.mb_matrix.specs.Key.{Suits, digits_of};
ghost use Rattle.mb_matrix.specs.Matrix.{margins_of};

use mb_matrix::{Keys, Matrix, Peel};
use mb_tables::Table;
use std::alloc::Global;
use std::test::Fail;

/// The keys of the fiber of a table.
pub fn keys_for(alloc: Global, matrix: &Matrix, table: &Table) -> Result<Keys, Fail>
    requires { length table.now ≡ length matrix.now.columns }
    ensures digits { IfOk result (λ keys.
        keys ≡ digits_of matrix.now (margins_of matrix.now table.now)) }
    ensures suits { IfOk result (λ keys. Suits keys table.now) }
{
    let _cells = matrix.cols();
    let peel = Peel::of(alloc, matrix)?;
    let margins = matrix.margins(alloc, table)?;
    match Keys::of(alloc, matrix, &peel, margins.as_slice())? {
        None => Err(Fail::from("no keys")),
        Some(keys) => Ok(keys),
    }
}
