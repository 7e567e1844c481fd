//! The sums of weights over the tables of a list and of rings.

ghost use Rattle.std.specs.Prelude.{◌≡◌, ◌∷◌, All, [], length};
ghost use Rattle.mb_weights.specs.PValue.{tables_in};
ghost use Rattle.mb_weights.specs.loops.Parts.{AreSumsOf};
ghost use Rattle.mb_weights.specs.loops.SmallWays.{AreSmallWays};

use crate::sums::Sums;
use crate::weighing::weight_by;
use mb_matrix::{Matrix, Measure};
use mb_tables::Table;

/// The sums over one table.
fn sums_of_table(
    small: &[u64; 1024],
    matrix: &Matrix,
    measure: &Measure,
    most: u128,
    table: &Table,
) -> Option<Sums>
    requires small { AreSmallWays small.now }
    requires measure { length measure.now.bases ≡ length matrix.now.columns }
    requires table { length table.now ≡ length matrix.now.columns }
    ensures { AreSumsOf measure.now most (table.now ∷ []) result }
{
    let w = weight_by(small, matrix, measure, table)?;
    Some(Sums::of_weight(w, most))
}

/// The sums over the tables of a list.
pub fn sums_of(
    small: &[u64; 1024],
    matrix: &Matrix,
    measure: &Measure,
    most: u128,
    tables: &[Table],
) -> Option<Sums>
    requires small { AreSmallWays small.now }
    requires measure { length measure.now.bases ≡ length matrix.now.columns }
    requires tables { All (λ table. length table ≡ length matrix.now.columns) tables.now }
    ensures { AreSumsOf measure.now most tables.now result }
{
    let mut sums = Sums::new();
    for table in tables {
        let more = sums_of_table(small, matrix, measure, most, table)?;
        sums = sums.plus(more)?;
    }
    Some(sums)
}

/// The sums over the tables of all rings.
pub fn sums_in(
    small: &[u64; 1024],
    matrix: &Matrix,
    measure: &Measure,
    most: u128,
    rings: &[Vec<Table>],
) -> Option<Sums>
    requires small { AreSmallWays small.now }
    requires measure { length measure.now.bases ≡ length matrix.now.columns }
    requires tables { All (λ table. length table ≡ length matrix.now.columns)
        (tables_in rings.now) }
    ensures { AreSumsOf measure.now most (tables_in rings.now) result }
{
    let mut sums = Sums::new();
    for ring in rings {
        let more = sums_of(small, matrix, measure, most, ring.as_slice())?;
        sums = sums.plus(more)?;
    }
    Some(sums)
}
