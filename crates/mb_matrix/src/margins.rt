//! The margins of tables and moves.

ghost use Rattle.std.specs.Prelude.{◌≡◌, ◌↔◌, ◌<◌, ◌≤◌, ◌*◌, ◌^◌, ◌*ℤ◌, ◌≤ℤ◌, IfOk, IsTrue, length, map, neg_ℤ, pos};
ghost use Rattle.mb_matrix.specs.Matrix.{IsMove, margins_of, row_of};
ghost use Rattle.mb_tables.specs.Margin.{margin, move_margin};

use crate::matrix::Matrix;
use mb_tables::{MOST_CELLS, Move, OutOfMemory, Table};
use std::alloc::Global;

/// A count times an entry of a row.
fn counted(entry: u16, count: u32) -> u64
    ensures product { result ≡ entry * count }
    ensures small { result < 2 ^ 48 }
{
    u64::from(entry) * u64::from(count)
}

/// An entry of a move times an entry of a row.
fn weighted(entry: u16, z: i32) -> i64
    ensures product { result ≡ pos entry *ℤ z }
    ensures low { neg_ℤ (pos (2 ^ 47)) ≤ℤ result }
    ensures high { result ≤ℤ pos (2 ^ 47) }
{
    i64::from(entry) * i64::from(z)
}

/// The sum of the counts, each times its entry of the row.
pub fn sum_of_counts(row: &[u16], counts: &[u32]) -> u64
    requires cells { length row.now ≡ length counts.now }
    requires few { length row.now ≤ 64 }
    ensures { result ≡ margin row.now counts.now }
{
    let mut sum = 0;
    for (cell, entry) in row.iter().enumerate() {
        sum += counted(*entry, counts[cell]);
    }
    sum
}

/// The sum of a move's entries, each times its entry of the row.
fn sum_of_entries(row: &[u16], entries: &[i32]) -> i64
    requires cells { length row.now ≡ length entries.now }
    requires few { length row.now ≤ 64 }
    ensures { result ≡ move_margin (map pos row.now) entries.now }
{
    let mut sum = 0;
    for (cell, entry) in row.iter().enumerate() {
        sum += weighted(*entry, entries[cell]);
    }
    sum
}

impl Matrix {
    /// A margin of a table: the sum of its counts, each times its entry of the row. It takes no
    /// memory. Rows count from 0.
    pub fn margin(&self, row: u32, table: &Table) -> u64
        requires row { row < self.now.rows }
        requires cells { length table.now ≡ length self.now.columns }
        ensures { result ≡ margin (row_of self.now row) table.now }
    {
        sum_of_counts(self.row(row), table.as_slice())
    }

    /// All margins of a table, one a row.
    pub fn margins(&self, alloc: Global, table: &Table) -> Result<Vec<u64>, OutOfMemory>
        requires { length table.now ≡ length self.now.columns }
        ensures margins { IfOk result (λ list. list.items ≡ margins_of self.now table.now) }
        ensures rows { IfOk result (λ list. length list.items ≡ self.now.rows) }
    {
        let rows = self.rows();
        let mut list = Vec::with_capacity(alloc, rows as usize)?;
        for row in 0..rows {
            list.push(self.margin(row, table))?;
        }
        Ok(list)
    }

    /// Whether two tables have the same margins. It takes no memory.
    pub fn same_margins(&self, a: &Table, b: &Table) -> bool
        requires first { length a.now ≡ length self.now.columns }
        requires second { length b.now ≡ length self.now.columns }
        ensures { IsTrue result ↔ (margins_of self.now a.now ≡ margins_of self.now b.now) }
    {
        for row in 0..self.rows() {
            if self.margin(row, a) != self.margin(row, b) {
                return false;
            }
        }
        true
    }

    /// Whether each margin of a move is 0, so that tables one step of it apart have the same
    /// margins. It takes no memory.
    pub fn is_move(&self, z: &Move) -> bool
        requires { length z.now ≡ length self.now.columns }
        ensures { IsTrue result ↔ IsMove self.now z.now }
    {
        let mut entries = [0; MOST_CELLS as usize];
        let (entries, _rest) = entries.split_at_mut(z.len() as usize);
        z.copy_to_slice(entries);
        for row in 0..self.rows() {
            if sum_of_entries(self.row(row), entries) != 0 {
                return false;
            }
        }
        true
    }
}
