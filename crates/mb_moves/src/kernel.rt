//! The moves that keep all margins of a matrix.

ghost use Rattle.std.specs.Prelude.{◌≡◌, ◌<◌, ◌≤◌, ◌-◌, ◌*ℤ◌, All, IfNone, IfSome, IsSomeAnd, MatchBool, length, pos, slice_get, take};
ghost use Rattle.mb_tables.specs.Limits.{most_cells};
ghost use Rattle.mb_tables.specs.Rows.{IsMoveOf};
ghost use Rattle.mb_moves.specs.loops.Support.{cells_margin, support};

use crate::grid::Grid;
use mb_tables::{MOST_CELLS, Move, Moves};

/// A product, where sums of it need more than 64 bits.
fn product(a: i32, b: i32) -> i128
    ensures { result ≡ a *ℤ b }
{
    i128::from(i64::from(a) * i64::from(b))
}

/// The margin of a move over its support.
fn support_margin(row: &[i32], move_entries: &[i32], cells: &[u8]) -> i128
    requires widths { length move_entries.now ≡ length row.now }
    requires cells { All (λ cell. cell < length row.now) cells.now }
    requires few { length cells.now ≤ most_cells }
    ensures { result ≡ cells_margin row.now move_entries.now cells.now }
{
    let mut sum: i128 = 0;
    for cell in cells {
        let cell = *cell as usize;
        sum += product(row[cell], move_entries[cell]);
    }
    sum
}

/// Lists the cells where a move isn't 0, in order, and says how many they are.
fn list_support(move_entries: &[i32], cells: &mut [u8]) -> usize
    requires narrow { length move_entries.now ≤ most_cells }
    requires room { length move_entries.now ≤ length cells.old }
    ensures count { result ≤ length move_entries.now }
    ensures cells { take result cells.new ≡ support 0 move_entries.now }
{
    let mut count = 0;
    for (cell, z) in move_entries.iter().enumerate() {
        if *z != 0 {
            cells[count] = cell as u8;
            count += 1;
        }
    }
    count
}

/// Whether the margin of a move over its support is 0.
fn is_kept(row: &[i32], move_entries: &[i32], cells: &[u8]) -> bool
    requires widths { length move_entries.now ≡ length row.now }
    requires cells { All (λ cell. cell < length row.now) cells.now }
    requires few { length cells.now ≤ most_cells }
    ensures { MatchBool result (cells_margin row.now move_entries.now cells.now ≡ pos 0)
        (cells_margin row.now move_entries.now cells.now ≡ pos 0 → ⊥) }
{
    support_margin(row, move_entries, cells) == 0
}

/// Whether all margins of a list of entries are 0.
pub fn is_move_of(grid: &Grid, move_entries: &[i32]) -> bool
    requires width { length move_entries.now ≡ grid.now.width }
    ensures { MatchBool result (IsMoveOf grid.now.rows move_entries.now)
        (IsMoveOf grid.now.rows move_entries.now → ⊥) }
{
    let mut cells = [0u8; MOST_CELLS as usize];
    let _narrow = grid.width();
    let count = list_support(move_entries, &mut cells);
    let support = &cells[..count];
    for i in 0..grid.row_count() {
        if !is_kept(grid.row(i), move_entries, support) {
            return false;
        }
    }
    true
}

/// Whether all margins of a move are 0.
fn is_kept_by(grid: &Grid, z: &Move) -> bool
    requires width { length z.now ≡ grid.now.width }
    ensures { MatchBool result (IsMoveOf grid.now.rows z.now)
        (IsMoveOf grid.now.rows z.now → ⊥) }
{
    let mut entries = [0i32; MOST_CELLS as usize];
    let entries = &mut entries[..z.len() as usize];
    z.copy_to_slice(entries);
    is_move_of(grid, entries)
}

/// The number, from 1, of the first move whose margins under the grid aren't all 0, or nothing
/// where all margins of all moves are 0. It takes no memory.
pub fn first_not_move(grid: &Grid, moves: &Moves) -> Option<u32>
    requires widths { grid.now.width ≡ moves.now.width }
    ensures none { IfNone result (All (IsMoveOf grid.now.rows) moves.now.rows) }
    ensures some { IfSome result (λ k. (1 ≤ k) × IsSomeAnd (slice_get moves.now.rows (k - 1))
        (λ z. IsMoveOf grid.now.rows z → ⊥)) }
    ensures first { IfSome result (λ k.
        All (IsMoveOf grid.now.rows) (take (k - 1) moves.now.rows)) }
{
    for (k, z) in moves.as_slice().iter().enumerate() {
        if !is_kept_by(grid, z) {
            return Some(k as u32 + 1);
        }
    }
    None
}
