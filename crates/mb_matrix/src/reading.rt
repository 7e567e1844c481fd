//! Tables read back from their keys: the free cells by division, the others by the rows that
//! decide them.

ghost use Rattle.std.specs.Prelude.{◌≡◌, ◌≢◌, ◌*◌, ◌+◌, ◌<◌, ◌^◌, ◌⊎◌, All, IfOk, List, length, ℕ};
ghost use Rattle.mb_matrix.specs.Key.{Suits, digits_of, key_count, key_of};
ghost use Rattle.mb_matrix.specs.Matrix.{margins_of, row_of};
ghost use Rattle.mb_matrix.specs.Peel.{peel_of};
ghost use Rattle.mb_matrix.specs.declared.digit.Digit.{Digit};
ghost use Rattle.mb_tables.specs.Counts.{AreCounts};
ghost use Rattle.mb_tables.specs.Lists.{In};
ghost use Rattle.mb_tables.specs.Margin.{margin};
ghost use Rattle.mb_tables.specs.Vectors.{at};

use crate::digit::Digit;
use crate::keys::Keys;
use crate::margins::sum_of_counts;
use crate::matrix::Matrix;
use crate::peel::{Peel, Peeled};
use mb_tables::{MOST_CELLS, OutOfMemory, Table};
use std::alloc::Global;

/// Writes the counts of the free cells of the table with this key.
fn read_digits(digits: &[Digit], key: u64, counts: &mut [u32])
    requires fits { key_count digits.now < 2 ^ 64 }
    requires cells { All (λ d. d.cell < length counts.old) digits.now }
    ensures cells { length counts.new ≡ length counts.old }
    ensures read { (u : List ℕ) → Suits digits.now u → AreCounts u → key_of digits.now u ≡ key →
        (d : Digit) → In d digits.now → at counts.new d.cell ≡ at u d.cell }
{
    let mut rest = key.saturating_sub(1);
    for digit in digits {
        let radix = digit.bound + 1;
        counts[digit.cell as usize] = (rest % radix % 4_294_967_296) as u32;
        rest /= radix;
    }
}

/// Writes the count of a cell that a row decides, from the margin of the row.
fn decide(matrix: &Matrix, row: u32, cell: u32, total: u64, counts: &mut [u32])
    requires row { row < matrix.now.rows }
    requires cell { cell < length matrix.now.columns }
    requires cells { length counts.old ≡ length matrix.now.columns }
    ensures cells { length counts.new ≡ length counts.old }
    ensures others { (k : ℕ) → k ≢ cell → at counts.new k ≡ at counts.old k }
    ensures decided { (u : List ℕ) → length u ≡ length matrix.now.columns → AreCounts u →
        margin (row_of matrix.now row) u ≡ total → 0 < at (row_of matrix.now row) cell →
        ((k : ℕ) → k ≢ cell → (at (row_of matrix.now row) k ≡ 0) ⊎ (at counts.old k ≡ at u k)) →
        at counts.new cell ≡ at u cell }
{
    counts[cell as usize] = 0;
    let others = sum_of_counts(matrix.row(row), counts);
    let entry = u64::from(matrix.entry(row, cell));
    if entry > 0 {
        counts[cell as usize] = (total.saturating_sub(others) / entry % 4_294_967_296) as u32;
    }
}

impl Keys {
    ghost use Rattle.std.specs.Prelude.{◌≡◌, IfOk, List, length, ℕ};
    ghost use Rattle.mb_matrix.specs.Key.{digits_of, key_of};
    ghost use Rattle.mb_matrix.specs.Matrix.{margins_of};
    ghost use Rattle.mb_matrix.specs.Peel.{peel_of};
    ghost use Rattle.mb_tables.specs.Counts.{AreCounts};

    /// Writes the counts of the table of the fiber with this key, if there is one. It takes no
    /// memory.
    pub fn read(&self, matrix: &Matrix, peel: &Peel, margins: &[u64], key: u64, counts: &mut [u32])
        requires peel { peel.now ≡ peel_of matrix.now }
        requires margins { length margins.now ≡ matrix.now.rows }
        requires keys { self.now ≡ digits_of matrix.now margins.now }
        requires cells { length counts.old ≡ length matrix.now.columns }
        ensures cells { length counts.new ≡ length counts.old }
        ensures read { (u : List ℕ) → length u ≡ length matrix.now.columns → AreCounts u →
            margins_of matrix.now u ≡ margins.now → key_of self.now u ≡ key → counts.new ≡ u }
    {
        let _cells = matrix.cols();
        read_digits(self.digits(), key, counts);
        for step in peel.steps() {
            if let Peeled::Decided { cell, row } = *step {
                decide(matrix, row, cell, margins[row as usize], counts);
            }
        }
    }

    /// The table of the fiber with this key, if there is one.
    pub fn table(
        &self,
        alloc: Global,
        matrix: &Matrix,
        peel: &Peel,
        margins: &[u64],
        key: u64,
    ) -> Result<Table, OutOfMemory>
        requires peel { peel.now ≡ peel_of matrix.now }
        requires margins { length margins.now ≡ matrix.now.rows }
        requires keys { self.now ≡ digits_of matrix.now margins.now }
        ensures { IfOk result (λ table. (u : List ℕ) → length u ≡ length matrix.now.columns →
            AreCounts u → margins_of matrix.now u ≡ margins.now → key_of self.now u ≡ key →
            table ≡ u) }
    {
        let mut counts = [0; MOST_CELLS as usize];
        let (counts, _rest) = counts.split_at_mut(matrix.cols() as usize);
        self.read(matrix, peel, margins, key, counts);
        Table::from_counts(alloc, counts)
    }
}
