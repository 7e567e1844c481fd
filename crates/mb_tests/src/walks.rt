//! The walk itself, at the sizes that matter.

ghost use Rattle.std.specs.Prelude.{◌≡◌, ◌<◌, ◌^◌, All, IfOk, length};
ghost use Rattle.std.specs.Bool.{OnTrue};
ghost use Rattle.mb_matrix.specs.Matrix.{IsMove, margins_of};

use mb_matrix::Matrix;
use mb_outside::{Gate, NoGate};
use mb_rings::WalkFault;
use mb_samples::has_small_margins;
use mb_tables::{MOST_MOVES, Move, Moves, Table};
use mb_walk::walk;
use std::alloc::{AllocError, Global};
use std::test::Fail;
use std::thread::Threads;

/// Adds a move, where it is one of the matrix; whether it was added.
fn push_move(alloc: Global, matrix: &Matrix, moves: &mut Moves, entries: &[i32]) -> bool
    requires width { moves.old.width ≡ length matrix.now.columns }
    requires moves { All (IsMove matrix.now) moves.old.rows }
    ensures width { moves.new.width ≡ length matrix.now.columns }
    ensures moves { All (IsMove matrix.now) moves.new.rows }
{
    match Move::try_new(alloc, entries) {
        Ok(z) if z.len() == moves.width() && moves.len() < MOST_MOVES && matrix.is_move(&z) => {
            moves.push(z).is_ok()
        }
        _ => false,
    }
}

/// The move that adds 1 at a cell and takes 1 away at the next one.
fn difference(alloc: Global, cells: u32, cell: u32) -> Result<Vec<i32>, AllocError> {
    let mut entries = Vec::new(alloc);
    for at in 0..cells {
        entries.push(i32::from(at == cell) - i32::from(at == cell.saturating_add(1)))?;
    }
    Ok(entries)
}

/// The differences of cells side by side, as far as they are moves of the matrix.
fn differences(alloc: Global, matrix: &Matrix) -> Result<Moves, AllocError>
    ensures width { IfOk result (λ moves. moves.width ≡ length matrix.now.columns) }
    ensures moves { IfOk result (λ moves. All (IsMove matrix.now) moves.rows) }
{
    let mut moves = Moves::new(alloc, matrix.cols());
    for cell in 1..matrix.cols() {
        let entries = difference(alloc, matrix.cols(), cell - 1)?;
        push_move(alloc, matrix, &mut moves, entries.as_slice());
    }
    Ok(moves)
}

/// What a walk answers.
#[derive(Clone, Copy, PartialEq, Eq)]
pub enum Answer {
    /// So many rings of so many tables together.
    Rings { rings: u32, tables: u32 },
    /// More tables than the limit; so many were seen.
    TooLarge { seen: u32 },
}

/// The walk from these counts under one row of ones, by the differences of cells side by side.
pub fn walked<R: Threads + Sync, G: Gate + Sync>(
    rt: &R,
    alloc: Global,
    gate: &G,
    counts: &[u32],
    limit: u32,
) -> Result<Answer, Fail> {
    let ones = vec![in alloc; 1i32; counts.len()]?;
    let matrix = Matrix::try_new(alloc, 1, u32::try_from(counts.len())?, ones.as_slice())?;
    let moves = differences(alloc, &matrix)?;
    let start = Table::try_new(alloc, counts)?;
    if start.len() != matrix.cols()
        || !has_small_margins(alloc, &matrix, &start)
        || limit < 1
        || limit > 2_000_000
    {
        return Err(Fail::from("no start of a walk"));
    }
    match walk(rt, alloc, &matrix, &moves, &start, limit, 1, gate) {
        Ok(rings) => Ok(Answer::Rings {
            rings: rings.len(),
            tables: rings.total(),
        }),
        Err(WalkFault::TooLarge { seen }) => Ok(Answer::TooLarge { seen }),
        Err(WalkFault::OutOfMemory) => Err(Fail::from("no memory")),
    }
}

/// 1 at the first of so many cells, and else 0.
fn one_of(alloc: Global, cells: usize) -> Result<Vec<u32>, AllocError> {
    let mut counts = vec![in alloc; 0u32; cells]?;
    if let Some(first) = counts.first_mut() {
        *first = 1;
    }
    Ok(counts)
}

// By hand: under one row of ones the tables of n in two cells are a path of n + 1, and those of 1
// in 64 cells a path of 64.
#[test]
fn paths(rt: HostRuntime) -> Result<(), Fail> {
    let wide = one_of(rt.alloc(), 64)?;
    let path = |rings| Answer::Rings {
        rings,
        tables: rings,
    };
    let cases: [(&[u32], u32, Answer); 5] = [
        (&[0, 99999], 100_000, path(100_000)),
        (&[0, 100000], 100_000, Answer::TooLarge { seen: 100_001 }),
        (&[0, 0], 1, path(1)),
        (wide.as_slice(), 64, path(64)),
        (wide.as_slice(), 63, Answer::TooLarge { seen: 64 }),
    ];
    for (counts, limit, wanted) in cases {
        assert!(rt; walked(&rt, rt.alloc(), &NoGate, counts, limit)? == wanted);
    }
    Ok(())
}
