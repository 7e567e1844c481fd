//! The laws of the text, each the contract of a function that does nothing.

ghost use Rattle.std.specs.Prelude.{Ok, ◌≡◌};
ghost use Rattle.mb_moves.specs.GridText.{matrix_of, moves_of};
ghost use Rattle.mb_moves.specs.Laws.{AcceptedExactly, RefusedExactly, WrittenIsRead};
ghost use Rattle.mb_moves.specs.Written.{written};

use crate::grid::Grid;
use mb_tables::Moves;

/// Law: a text is accepted exactly where its tokens are two sizes within their limits and then as
/// many entries as these say, each within its limits.
pub fn accepted_exactly()
    ensures { AcceptedExactly }
{}

/// Law: each refusal is the first fault of the text's tokens, and only that.
pub fn refused_exactly()
    ensures { RefusedExactly }
{}

/// Law: the written form of a matrix, and of moves, is accepted and says what was written.
pub fn written_is_read()
    ensures { WrittenIsRead }
{}

/// Law: so it is for each matrix that the program holds.
pub fn written_matrix_is_read(grid: &Grid)
    ensures { matrix_of (written grid.now) ≡ Ok grid.now }
{
    let _sound = grid.width();
}

/// Law: and for each list of moves.
pub fn written_moves_are_read(moves: &Moves)
    ensures { moves_of (written moves.now) ≡ Ok moves.now }
{
    let _sound = moves.width();
}
