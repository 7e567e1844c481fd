//! Matrix and move files, written.

ghost use Rattle.std.specs.Prelude.{◌≡◌, ◌≤◌, ◌++◌, ◌∷◌, [], IfOk, OnOk, pos};
ghost use Rattle.mb_tables.specs.Limits.{most_cells, most_moves};
ghost use Rattle.mb_moves.specs.Written.{number_line, written};

use crate::grid::Grid;
use mb_tables::{MOST_CELLS, Move, Moves, OutOfMemory};
use mb_text::push_line;
use std::alloc::Global;

/// Adds the line of the two sizes.
fn push_sizes(out: &mut Vec<u8>, rows: u32, cols: u32) -> Result<(), OutOfMemory>
    requires rows { rows ≤ most_moves }
    requires cols { cols ≤ most_cells }
    ensures { OnOk result
        (out.new.items ≡ out.old.items ++ number_line (pos rows ∷ pos cols ∷ [])) }
{
    push_line(out, &[rows as i32, cols as i32])
}

/// Adds the line of a move.
fn push_move(out: &mut Vec<u8>, z: &Move) -> Result<(), OutOfMemory>
    ensures { OnOk result (out.new.items ≡ out.old.items ++ number_line z.now) }
{
    let mut entries = [0i32; MOST_CELLS as usize];
    let entries = &mut entries[..z.len() as usize];
    z.copy_to_slice(entries);
    push_line(out, entries)
}

/// The written form of a matrix: a line with the numbers of its rows and columns, and a line for
/// each row. Numbers are decimal, one space stands between two, and each line ends with a line
/// feed.
pub fn write_matrix(alloc: Global, grid: &Grid) -> Result<Vec<u8>, OutOfMemory>
    ensures { IfOk result (λ text. text.items ≡ written grid.now) }
{
    let mut out = Vec::new(alloc);
    push_sizes(&mut out, grid.row_count(), grid.width())?;
    for i in 0..grid.row_count() {
        push_line(&mut out, grid.row(i))?;
    }
    Ok(out)
}

/// The written form of moves: a line with their number and width, and a line for each move, as
/// those of a matrix.
pub fn write_moves(alloc: Global, moves: &Moves) -> Result<Vec<u8>, OutOfMemory>
    ensures { IfOk result (λ text. text.items ≡ written moves.now) }
{
    let mut out = Vec::new(alloc);
    push_sizes(&mut out, moves.len(), moves.width())?;
    for z in moves.as_slice() {
        push_move(&mut out, z)?;
    }
    Ok(out)
}
