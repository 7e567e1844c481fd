//! `moves MATRIX MOVES`.
ghost use Rattle.std.specs.Prelude.{◌≡◌, IfOk};
ghost use Rattle.mb_desk.specs.Decision.{DoesFiles};
ghost use Rattle.mb_desk.specs.MovesCommand.{moves_count, moves_line, moves_plan};
ghost use Rattle.mb_desk.specs.Needs.{FilesAlone, Touches};

use crate::judging::{count_tested, matrix_text};
use crate::plans::{Change, Plan, Stop};
use crate::reading::read_file;
use crate::requests::MovesWords;
use mb_outside::Files;
use mb_registry::Body;
use std::alloc::{AllocError, Global};

/// Reads both files, then both texts, and counts the moves.
fn count_moves<F: Files>(alloc: Global, files: &mut F, words: &MovesWords<'_>) -> Result<u32, Stop>
    ensures does { DoesFiles (F.held files.old) (F.held files.new)
        (F.faults files.old) (F.faults files.new)
        result (moves_count words.now) }
{
    let first = read_file(alloc, files, &words.matrix, 1)?;
    let second = read_file(alloc, files, &words.moves, 2)?;
    let matrix = matrix_text(alloc, first, 1)?;
    count_tested(alloc, &matrix, second, 2)
}

/// The line that is printed.
fn count_line(alloc: Global, count: u32) -> Result<Body, AllocError>
    ensures { IfOk result (λ line. line ≡ moves_line count) }
{
    Ok(Body::of_line(format!(in alloc; "moves {count}\n")?))
}

/// The moves of the matrix are counted. Nothing is stored.
pub fn plan<'a, F: Files>(
    alloc: Global,
    files: &mut F,
    words: &MovesWords<'a>,
) -> Result<Plan<'a>, Stop>
    ensures does { DoesFiles (F.held files.old) (F.held files.new)
        (F.faults files.old) (F.faults files.new)
        result (moves_plan words.now) }
    ensures touches { IfOk result (λ plan. Touches FilesAlone plan.change) }
{
    let count = count_moves(alloc, files, words)?;
    let answer = count_line(alloc, count)?;
    Ok(Plan {
        answer,
        change: Change::Nothing,
    })
}
