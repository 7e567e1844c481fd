//! The rows of a move file, tested one after the other and not kept.

ghost use Rattle.std.specs.Prelude.{◌≡◌, ◌≤◌, ◌∷◌, [], length};
ghost use Rattle.std.specs.Option.{option_or};
ghost use Rattle.mb_tables.specs.Answers.{Gives};
ghost use Rattle.mb_tables.specs.Limits.{most_cells, most_moves};
ghost use Rattle.mb_text.specs.Tokens.{tokens};
ghost use Rattle.mb_moves.specs.GridText.{cause};
ghost use Rattle.mb_moves.specs.Testing.{first_wrong, tested_text};
ghost use Rattle.mb_moves.specs.loops.RowTests.{wrong_row};

use crate::fault::GridFault;
use crate::grid::Grid;
use crate::{entries, kernel, reading};
use mb_tables::MOST_MOVES;
use std::alloc::Global;

/// How the rows of a move file stand to a matrix.
#[derive(Clone, Copy, Debug, PartialEq, Eq)]
pub enum Tested {
    /// Every row is a move of the matrix; so many rows.
    Moves { count: u32 },
    /// The move file has another number of columns: this one.
    WidthDiffers { moves: u32 },
    /// This row, the first such one, has a margin that isn't 0. Rows count from 1.
    NotAMove { row: u32 },
}

/// The first row that is no move, with one row more: the one that was found before, or else this
/// one where it is none.
fn first_wrong_with(found: Option<u32>, number: u32, grid: &Grid, row: &[i32]) -> Option<u32>
    requires width { length row.now ≡ grid.now.width }
    ensures { result ≡ option_or found (first_wrong grid.now.rows number (row.now ∷ [])) }
{
    match found {
        Some(_) => found,
        None if kernel::is_move_of(grid, row) => None,
        None => Some(number),
    }
}

/// The first row that is no move of the matrix, where the text is so many rows of the matrix's
/// width, or the text's first fault. Rows count from 1.
fn first_wrong_row(
    alloc: Global,
    grid: &Grid,
    rows: u32,
    cols: u32,
    text: &[u8],
) -> Result<Option<u32>, GridFault>
    requires few_rows { rows ≤ most_moves }
    requires few_cols { cols ≤ most_cells }
    requires width { cols ≡ grid.now.width }
    ensures { Gives cause (λ row. row) result
        (wrong_row grid.now.rows cols rows (tokens text.now)) }
{
    let wanted = rows * cols;
    let mut buffer = Vec::with_capacity(alloc, cols as usize)?;
    let mut rest = text;
    let mut wrong = None;
    for k in 0..rows {
        buffer.clear();
        let (row, after) = entries::read_entries(buffer, rest, k * cols, cols, wanted)?;
        wrong = first_wrong_with(wrong, k + 1, grid, row.as_slice());
        buffer = row;
        rest = after;
    }
    entries::read_end(rest, wanted)?;
    Ok(wrong)
}

/// How the rows of a move file, written as those of `read_moves`, stand to the matrix: whether
/// the widths are equal, and then whether all margins of each row are 0. Rows count from 1.
///
/// The whole text is read, from left to right, in any case: a refusal is its first fault, and
/// comes before every answer on widths and rows. No row is kept, so the memory is that of one row.
pub fn test_moves(alloc: Global, grid: &Grid, text: &[u8]) -> Result<Tested, GridFault>
    ensures { Gives cause (λ tested. tested) result (tested_text grid.now text.now) }
{
    let (sizes, rest) = reading::read_sizes(text, 0, MOST_MOVES)?;
    if sizes.cols != grid.width() {
        entries::check_entries(rest, sizes.rows * sizes.cols)?;
        return Ok(Tested::WidthDiffers { moves: sizes.cols });
    }
    match first_wrong_row(alloc, grid, sizes.rows, sizes.cols, rest)? {
        None => Ok(Tested::Moves { count: sizes.rows }),
        Some(row) => Ok(Tested::NotAMove { row }),
    }
}
