//! `reach MATRIX MOVES TABLE [--limit L]`.
ghost use Rattle.std.specs.Prelude.{◌≡◌, IfOk, false};
ghost use Rattle.mb_desk.specs.Decision.{DoesFiles, Follows, blames};
ghost use Rattle.mb_desk.specs.Needs.{FilesAlone, Touches};
ghost use Rattle.mb_desk.specs.ReachCommand.{reach_plan, reach_rings, texts_rings, walked};
ghost use Rattle.mb_reports.specs.RingTable.{ring_table_of};

use crate::judging::{count_judged, matrix_text, moves_text};
use crate::limits::Limit;
use crate::plans::{Change, Plan, Stop};
use crate::reading::read_file;
use crate::refusals::Refusal;
use crate::requests::ReachWords;
use crate::start::{design_matrix, start_table};
use mb_moves::Grid;
use mb_outside::{Files, Gate};
use mb_registry::Body;
use mb_reports::ring_table;
use mb_rings::{Rings, WalkFault};
use mb_tables::Moves;
use mb_walk::walk;
use std::alloc::{AllocError, Global};
use std::marker::Model;
use std::thread::Threads;

/// The rings that a walk reached, seen as the list of their lists of tables.
#[derive(Drop)]
struct Reached {
    walked: Rings,
}

impl Model for Reached {
    ghost use Rattle.std.specs.Prelude.{List};
    ghost use Rattle.mb_rings.specs.Ring.{Ring};

    ghost Value = { List Ring };

    ghost view = { λ reached. reached.walked.rings };
}

/// The rings of the table of a file under moves, after the matrix, the widths, the moves and the
/// table are tested.
fn walk_from<R: Threads + Sync, G: Gate + Sync>(
    rt: &R,
    alloc: Global,
    grid: &Grid,
    moves: &Moves,
    file: &Moves,
    limit: &Limit,
    gate: &G,
) -> Result<Reached, Stop>
    ensures rings { Follows result (walked limit.now grid.now moves.now file.now) }
    ensures own { blames result ≡ false }
{
    let matrix = design_matrix(alloc, grid)?;
    count_judged(grid, moves)?;
    let start = start_table(alloc, file, grid.width())?;
    match walk(rt, alloc, &matrix, moves, &start, limit.tables(), 1, gate) {
        Ok(walked) => Ok(Reached { walked }),
        Err(WalkFault::TooLarge { seen }) => Err(Stop::Refused(Refusal::TooLarge { seen })),
        Err(WalkFault::OutOfMemory) => Err(Stop::Memory),
    }
}

/// The rings that the texts of three files say: the texts are read in order, and then the table is
/// walked from. The texts are dropped.
fn walk_texts<R: Threads + Sync, G: Gate + Sync>(
    rt: &R,
    alloc: Global,
    first: Body,
    second: Body,
    third: Body,
    limit: &Limit,
    gate: &G,
) -> Result<Reached, Stop>
    ensures rings { Follows result (texts_rings limit.now first second third) }
    ensures own { blames result ≡ false }
{
    let grid = matrix_text(alloc, first, 1)?;
    let moves = moves_text(alloc, second, 2)?;
    let file = moves_text(alloc, third, 3)?;
    walk_from(rt, alloc, &grid, &moves, &file, limit, gate)
}

/// Reads the three files, then their texts, and walks.
fn find_rings<R: Threads + Sync, F: Files, G: Gate + Sync>(
    rt: &R,
    alloc: Global,
    files: &mut F,
    words: &ReachWords<'_>,
    gate: &G,
) -> Result<Reached, Stop>
    ensures does { DoesFiles (F.held files.old) (F.held files.new)
        (F.faults files.old) (F.faults files.new)
        result (reach_rings words.now) }
{
    let first = read_file(alloc, files, &words.matrix, 1)?;
    let second = read_file(alloc, files, &words.moves, 2)?;
    let third = read_file(alloc, files, &words.table, 3)?;
    walk_texts(rt, alloc, first, second, third, &words.limit, gate)
}

/// The text that is printed.
fn rings_text(alloc: Global, reached: &Reached) -> Result<Body, AllocError>
    ensures { IfOk result (λ text. text ≡ ring_table_of reached.now) }
{
    match ring_table(alloc, reached.walked.all()) {
        Ok(text) => Ok(Body::of(text)),
        Err(_) => Err(AllocError),
    }
}

/// The tables that the moves reach are printed, ring by ring. Nothing is stored.
pub fn plan<'a, R: Threads + Sync, F: Files, G: Gate + Sync>(
    rt: &R,
    alloc: Global,
    files: &mut F,
    words: &ReachWords<'a>,
    gate: &G,
) -> Result<Plan<'a>, Stop>
    ensures does { DoesFiles (F.held files.old) (F.held files.new)
        (F.faults files.old) (F.faults files.new)
        result (reach_plan words.now) }
    ensures touches { IfOk result (λ plan. Touches FilesAlone plan.change) }
{
    let rings = find_rings(rt, alloc, files, words, gate)?;
    let answer = rings_text(alloc, &rings)?;
    Ok(Plan {
        answer,
        change: Change::Nothing,
    })
}
