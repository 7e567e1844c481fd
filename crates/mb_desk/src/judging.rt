//! The texts of the files, as matrices and moves.

ghost use Rattle.std.specs.Prelude.{◌≡◌, All, OnOk, false};
ghost use Rattle.mb_desk.specs.Decision.{Follows, blames};
ghost use Rattle.mb_desk.specs.Inputs.{accepted, text_stop};
ghost use Rattle.mb_desk.specs.MovesCommand.{judged, judged_text};
ghost use Rattle.mb_moves.specs.GridText.{matrix_of, moves_of};
ghost use Rattle.mb_tables.specs.Rows.{IsMoveOf};

use crate::plans::Stop;
use crate::refusals::Refusal;
use mb_moves::{Grid, GridFault, Tested, first_not_move, read_matrix, read_moves, test_moves};
use mb_registry::Body;
use mb_tables::Moves;
use std::alloc::Global;

/// Why the work stops for the fault of the text of the file of this number.
pub fn text_stop(file: u32, fault: GridFault) -> Stop
    ensures { result ≡ text_stop file fault }
{
    match fault {
        GridFault::OutOfMemory => Stop::Memory,
        GridFault::NoSize => Stop::Refused(Refusal::NoSize { file }),
        GridFault::BadNumber { token } => Stop::Refused(Refusal::BadNumber { file, token }),
        GridFault::TooWideNumber { token } => {
            Stop::Refused(Refusal::TooWideNumber { file, token })
        }
        GridFault::TooFew { found, wanted } => Stop::Refused(Refusal::TooFew {
            file,
            found,
            wanted,
        }),
        GridFault::TooMany { wanted } => Stop::Refused(Refusal::TooMany { file, wanted }),
    }
}

/// The matrix that the text of a file says. The text is dropped.
pub fn matrix_text(alloc: Global, text: Body, file: u32) -> Result<Grid, Stop>
    ensures matrix { Follows result (accepted file (matrix_of text)) }
    ensures own { blames result ≡ false }
{
    match read_matrix(alloc, text.as_slice()) {
        Ok(grid) => Ok(grid),
        Err(fault) => Err(text_stop(file, fault)),
    }
}

/// The moves that the text of a file says. The text is dropped.
pub fn moves_text(alloc: Global, text: Body, file: u32) -> Result<Moves, Stop>
    ensures moves { Follows result (accepted file (moves_of text)) }
    ensures own { blames result ≡ false }
{
    match read_moves(alloc, text.as_slice()) {
        Ok(moves) => Ok(moves),
        Err(fault) => Err(text_stop(file, fault)),
    }
}

/// The number of the moves that the text of a file says, where they are as wide as the matrix and
/// each is a move of it. The rows are tested one by one and none is kept; the text is dropped.
pub fn count_tested(alloc: Global, matrix: &Grid, text: Body, file: u32) -> Result<u32, Stop>
    ensures count { Follows result
        (judged_text file matrix.now text) }
    ensures own { blames result ≡ false }
{
    match test_moves(alloc, matrix, text.as_slice()) {
        Ok(Tested::Moves { count }) => Ok(count),
        Ok(Tested::WidthDiffers { moves }) => Err(Stop::Refused(Refusal::WidthDiffers {
            matrix: matrix.width(),
            moves,
        })),
        Ok(Tested::NotAMove { row }) => Err(Stop::Refused(Refusal::NotAMove { row })),
        Err(fault) => Err(text_stop(file, fault)),
    }
}

/// The number of moves, where they are as wide as the matrix and each is a move of it.
pub fn count_judged(matrix: &Grid, moves: &Moves) -> Result<u32, Stop>
    ensures count { Follows result (judged matrix.now moves.now) }
    ensures width { OnOk result (moves.now.width ≡ matrix.now.width) }
    ensures each { OnOk result (All (IsMoveOf matrix.now.rows) moves.now.rows) }
    ensures own { blames result ≡ false }
{
    if matrix.width() != moves.width() {
        return Err(Stop::Refused(Refusal::WidthDiffers {
            matrix: matrix.width(),
            moves: moves.width(),
        }));
    }
    match first_not_move(matrix, moves) {
        Some(row) => Err(Stop::Refused(Refusal::NotAMove { row })),
        None => Ok(moves.len()),
    }
}
