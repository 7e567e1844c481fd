//! Matrix and move files, read from left to right.

ghost use Rattle.std.specs.Prelude.{◌≡◌, ◌≤◌, ◌*◌, ◌+◌, All, IfOk, length};
ghost use Rattle.std.specs.List.{flat_map};
ghost use Rattle.mb_tables.specs.Answers.{Gives};
ghost use Rattle.mb_tables.specs.Limits.{most_cells, most_moves};
ghost use Rattle.mb_moves.specs.GridText.{cause, matrix_of, moves_of};
ghost use Rattle.mb_moves.specs.loops.Reads.{GoesOn, HasSizes};

use crate::fault::GridFault;
use crate::grid::Grid;
use crate::{entries, numbers};
use mb_tables::{MOST_CELLS, MOST_MOVES, Move, Moves};
use mb_text::next_token;
use std::alloc::Global;

/// The two sizes that a text begins with.
#[derive(Clone, Copy)]
pub struct Sizes {
    /// The number of rows.
    pub rows: u32,
    /// The number of columns.
    pub cols: u32,
}

/// The sizes, and the text after them.
pub fn read_sizes(text: &[u8], lowest: u32, highest: u32) -> Result<(Sizes, &[u8]), GridFault>
    ensures read { HasSizes (λ x. x.0.rows) (λ x. x.0.cols) (λ x. x.1.now) lowest highest text.now
        result }
    ensures some_rows { IfOk result (λ x. lowest ≤ x.0.rows) }
    ensures few_rows { IfOk result (λ x. x.0.rows ≤ highest) }
    ensures some_cols { IfOk result (λ x. 1 ≤ x.0.cols) }
    ensures few_cols { IfOk result (λ x. x.0.cols ≤ most_cells) }
{
    let Some((first, after_first)) = next_token(text) else {
        return Err(GridFault::NoSize);
    };
    let Some((second, rest)) = next_token(after_first) else {
        return Err(GridFault::NoSize);
    };
    let rows = numbers::size_of(first, lowest, highest)?;
    let cols = numbers::size_of(second, 1, MOST_CELLS)?;
    Ok((Sizes { rows, cols }, rest))
}

/// The matrix that a text says: its number of rows, 1 to 64, its number of columns, 1 to 64, and
/// the entries row by row, each of size 2,147,483,647 or less.
///
/// Numbers have an optional sign and may have leading zeros; blanks (bytes 9 to 13 and 32) part
/// them. A refusal is the first fault from left to right; nothing is kept then.
pub fn read_matrix(alloc: Global, text: &[u8]) -> Result<Grid, GridFault>
    ensures { Gives cause (λ grid. grid) result (matrix_of text.now) }
{
    let (sizes, rest) = read_sizes(text, 1, MOST_CELLS)?;
    let wanted = sizes.rows * sizes.cols;
    let (entries, rest) = entries::read_entries(Vec::new(alloc), rest, 0, wanted, wanted)?;
    entries::read_end(rest, wanted)?;
    Ok(Grid::from_entries(sizes.rows, sizes.cols, entries))
}

/// The next row of a move file, as a move, and the text after it. The vector is emptied, and then
/// has the row's entries.
fn read_row(
    alloc: Global,
    mut row: Vec<i32>,
    text: &[u8],
    found: u32,
    cols: u32,
    wanted: u32,
) -> Result<(Move, Vec<i32>, &[u8]), GridFault>
    requires narrow { cols ≤ most_cells }
    requires more { found + cols ≤ wanted }
    requires few { wanted ≤ most_moves * most_cells }
    ensures read { GoesOn (λ x. x.0) (λ x. x.2.now) wanted found text.now result }
    ensures count { IfOk result (λ x. length x.0 ≡ cols) }
{
    row.clear();
    let (row, rest) = entries::read_entries(row, text, found, cols, wanted)?;
    let z = Move::from_entries(alloc, row.as_slice())?;
    Ok((z, row, rest))
}

/// The rows of a move file, and the text after them.
fn read_rows(alloc: Global, text: &[u8], sizes: Sizes) -> Result<(Moves, &[u8]), GridFault>
    requires few_rows { sizes.rows ≤ most_moves }
    requires some_cols { 1 ≤ sizes.cols }
    requires few_cols { sizes.cols ≤ most_cells }
    ensures read { GoesOn (λ x. flat_map (λ row. row) x.0.rows) (λ x. x.1.now)
        (sizes.rows * sizes.cols) 0 text.now result }
    ensures width { IfOk result (λ x. x.0.width ≡ sizes.cols) }
    ensures count { IfOk result (λ x. length x.0.rows ≡ sizes.rows) }
    ensures each { IfOk result (λ x. All (λ row. length row ≡ sizes.cols) x.0.rows) }
{
    let wanted = sizes.rows * sizes.cols;
    let mut moves = Moves::new(alloc, sizes.cols);
    let mut buffer = Vec::new(alloc);
    let mut rest = text;
    for k in 0..sizes.rows {
        let (z, row, after) = read_row(alloc, buffer, rest, k * sizes.cols, sizes.cols, wanted)?;
        moves.push(z)?;
        buffer = row;
        rest = after;
    }
    Ok((moves, rest))
}

/// The moves that a text says: their number, 0 to 1,000,064, their width, 1 to 64, and then move
/// by move the entries, written as those of a matrix.
///
/// A refusal is the first fault from left to right; nothing is kept then. Memory is taken as
/// entries are met, and not for a stated size.
pub fn read_moves(alloc: Global, text: &[u8]) -> Result<Moves, GridFault>
    ensures { Gives cause (λ moves. moves) result (moves_of text.now) }
{
    let (sizes, rest) = read_sizes(text, 0, MOST_MOVES)?;
    let (moves, rest) = read_rows(alloc, rest, sizes)?;
    entries::read_end(rest, sizes.rows * sizes.cols)?;
    Ok(moves)
}
