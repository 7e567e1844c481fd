//! The weight of a monomial on each margin.

ghost use Rattle.std.specs.Prelude.{◌≡◌, ◌<◌, ◌*◌, ◌^◌, ◌≤◌, length};
ghost use Rattle.std.specs.Bool.{OnFalse, OnTrue};
ghost use Rattle.mb_order.specs.Weight.{IsLight, Suits, weights};
ghost use Rattle.mb_tables.specs.Margin.{margin};
ghost use Rattle.mb_tables.specs.Vectors.{at};

use crate::monomial::Monomial;
use crate::order::degree;
use mb_matrix::Matrix;

/// The most that a monomial may weigh on a margin.
pub const MOST_WEIGHT: u64 = 65_535;

const _: () = prove!(MOST_WEIGHT == 65_535);

/// A degree up to which a monomial is light over every matrix: no entry of one passes 1,000.
const LIGHT_DEGREE: u32 = 65;

/// An exponent times an entry of its column.
fn weighted(entry: u16, exponent: u16) -> u64
    ensures product { result ≡ entry * exponent }
    ensures small { result < 2 ^ 32 }
{
    u64::from(entry) * u64::from(exponent)
}

/// What the exponents of cells weigh on the margin of a row.
fn cells_weight(row: &[u16], cells: &[u16]) -> u64
    requires long { length row.now ≡ length cells.now }
    requires few { length cells.now ≤ 64 }
    ensures weight { result ≡ margin row.now cells.now }
    ensures small { result ≤ 2 ^ 32 * 64 }
{
    let mut sum = 0u64;
    for (cell, exponent) in cells.iter().enumerate() {
        sum += weighted(row[cell], *exponent);
    }
    sum
}

impl Monomial {
    /// The weight on a margin: the exponent of the margin's own symbol, and each cell's exponent
    /// times its entry of the row. Rows count from 0. It takes no memory.
    pub fn weight(&self, matrix: &Matrix, row: u32) -> u64
        requires shape { Suits matrix.now self.now }
        requires row { row < matrix.now.rows }
        ensures { result ≡ at (weights matrix.now self.now.list) row }
    {
        let (own, cells) = self.as_slice().split_at(matrix.rows() as usize);
        u64::from(own[row as usize]) + cells_weight(matrix.row(row), cells)
    }

    /// Whether no margin weighs more than 65,535. It takes no memory.
    pub fn is_light(&self, matrix: &Matrix) -> bool
        requires { Suits matrix.now self.now }
        ensures light { OnTrue result (IsLight matrix.now self.now.list) }
        ensures heavy { OnFalse result (IsLight matrix.now self.now.list → ⊥) }
    {
        let rows = matrix.rows();
        if degree(self.as_slice()) <= LIGHT_DEGREE {
            return true;
        }
        for row in 0..rows {
            if self.weight(matrix, row) > MOST_WEIGHT {
                return false;
            }
        }
        true
    }
}
