//! The walk beside the plain list of a fiber.

use crate::run::reach;
use mb_matrix::{Matrix, plain_fiber};
use mb_outside::NoGate;
use mb_tables::Table;
use std::alloc::{AllocError, Global};
use std::test::Fail;
use std::thread::Threads;

/// The fiber of a table, listed plainly.
fn listed(alloc: Global, matrix: &Matrix, table: &Table) -> Result<Vec<Table>, Fail> {
    if matrix.cols() != table.len() {
        return Err(Fail::from("another number of cells"));
    }
    let margins = matrix.margins(alloc, table)?;
    if !margins.iter().all(|margin| *margin < 4_294_967_296) {
        return Err(Fail::from("large margins"));
    }
    Ok(plain_fiber(alloc, matrix, table)?)
}

/// The lines of tables among those of a text of rings, in the order of their bytes.
fn table_lines(alloc: Global, text: &[u8]) -> Result<Vec<Vec<u8>>, AllocError> {
    let mut lines = Vec::new(alloc);
    for line in text.split(|byte| *byte == b'\n') {
        if line.first().is_some_and(|byte| byte.is_ascii_digit()) {
            lines.push(Vec::from_slice(alloc, line)?)?;
        }
    }
    lines.sort()?;
    Ok(lines)
}

/// The counts of a table, parted by single spaces.
fn line_of(alloc: Global, counts: &[u32]) -> Result<Vec<u8>, AllocError> {
    let mut line = Vec::new(alloc);
    for (cell, count) in counts.iter().enumerate() {
        if cell > 0 {
            line.push(b' ')?;
        }
        line.extend_from_slice(format!(in alloc; "{count}")?.as_bytes())?;
    }
    Ok(line)
}

/// The lines of the tables of a fiber, listed plainly.
fn plain_lines(alloc: Global, matrix: &Matrix, counts: &[u32]) -> Result<Vec<Vec<u8>>, Fail> {
    let fiber = listed(alloc, matrix, &Table::try_new(alloc, counts)?)?;
    let mut lines = Vec::new(alloc);
    for table in &fiber {
        lines.push(line_of(alloc, table.as_slice())?)?;
    }
    Ok(lines)
}

/// Independence in a 2 x 2 and in a 2 x 3 table: the matrix, and the swaps as 4ti2 gives them.
const SHAPES: [(u32, &[u8], &[u8]); 2] = [
    (
        4,
        b"4 4\n1 1 0 0\n0 0 1 1\n1 0 1 0\n0 1 0 1\n",
        b"1 4\n1 -1 -1 1\n",
    ),
    (
        6,
        b"5 6\n1 1 1 0 0 0\n0 0 0 1 1 1\n1 0 0 1 0 0\n0 1 0 0 1 0\n0 0 1 0 0 1\n",
        b"3 6\n0 1 -1 0 -1 1\n1 -1 0 -1 1 0\n1 0 -1 -1 0 1\n",
    ),
];

/// The design matrix of a text.
fn matrix_of(alloc: Global, text: &[u8]) -> Result<Matrix, Fail> {
    let grid = mb_moves::read_matrix(alloc, text)?;
    Ok(Matrix::try_new(alloc, grid.rows, grid.cols, grid.entries.as_slice())?)
}

/// The lines of the tables that `reach` prints from a table.
fn reached_lines<R: Threads + Sync>(
    rt: &R,
    alloc: Global,
    matrix: &[u8],
    moves: &[u8],
    counts: &[u32],
) -> Result<Vec<Vec<u8>>, Fail> {
    let cells = counts.len();
    let mut table = format!(in alloc; "1 {cells}\n")?.into_bytes();
    table.extend_from_slice(line_of(alloc, counts)?.as_slice())?;
    let text = reach(rt, alloc, &NoGate, matrix, moves, table.as_slice())?;
    Ok(table_lines(alloc, text.as_slice())?)
}

/// The digits of a number in base 5, as counts of so many cells.
fn counts_of(alloc: Global, cells: u32, code: u32) -> Result<Vec<u32>, AllocError> {
    let mut counts = Vec::new(alloc);
    let mut rest = code;
    for _ in 0..cells {
        counts.push(rest % 5)?;
        rest /= 5;
    }
    Ok(counts)
}

/// The sum of counts, each below 5.
fn total(counts: &[u32]) -> u32 {
    counts
        .iter()
        .fold(0, |sum, count| sum.saturating_add(*count))
}

/// How many tables of a total up to 4 have a fiber that the swaps reach whole; none where one
/// isn't.
fn agreeing<R: Threads + Sync>(
    rt: &R,
    alloc: Global,
    cells: u32,
    matrix: &[u8],
    moves: &[u8],
) -> Result<Option<u32>, Fail> {
    let design = matrix_of(alloc, matrix)?;
    let mut tables = 0u32;
    for code in 0..5u32.saturating_pow(cells) {
        let counts = counts_of(alloc, cells, code)?;
        if total(counts.as_slice()) <= 4 {
            tables = tables.saturating_add(1);
            let plain = plain_lines(alloc, &design, counts.as_slice())?;
            if plain != reached_lines(rt, alloc, matrix, moves, counts.as_slice())? {
                return Ok(None);
            }
        }
    }
    Ok(Some(tables))
}

// The swaps join each fiber, so the walk finds what the plain list has; 70 tables of four counts
// add up to at most 4, and 210 of six.
#[test]
fn the_walk_finds_the_fiber(rt: HostRuntime) -> Result<(), Fail> {
    for ((cells, matrix, moves), tables) in SHAPES.iter().zip([70, 210]) {
        assert_eq!(rt;
            agreeing(&rt, rt.alloc(), *cells, matrix, moves)?,
            Some(tables)
        );
    }
    Ok(())
}

/// The tables of a fiber as one text, listed plainly.
fn plain_text(alloc: Global, matrix: &[u8], counts: &[u32]) -> Result<Vec<u8>, Fail> {
    let mut text = Vec::new(alloc);
    for line in &plain_lines(alloc, &matrix_of(alloc, matrix)?, counts)? {
        text.extend_from_slice(line.as_slice())?;
        text.push(b'\n')?;
    }
    Ok(text)
}

// By hand: all tables with these margins, ascending.
#[test]
fn plain_lists(rt: HostRuntime) -> Result<(), Fail> {
    let cases: [(&[u8], &[u32], &[u8]); 4] = [
        (
            SHAPES[0].1,
            &[3, 1, 1, 3],
            b"0 4 4 0\n1 3 3 1\n2 2 2 2\n3 1 1 3\n4 0 0 4\n",
        ),
        (b"2 3\n2 1 0\n0 1 2\n", &[1, 0, 1], b"0 2 0\n1 0 1\n"),
        (
            SHAPES[1].1,
            &[1, 1, 1, 1, 1, 1],
            b"0 1 2 2 1 0\n0 2 1 2 0 1\n1 0 2 1 2 0\n1 1 1 1 1 1\n1 2 0 1 0 2\n\
            2 0 1 0 2 1\n2 1 0 0 1 2\n",
        ),
        (SHAPES[0].1, &[0, 0, 0, 0], b"0 0 0 0\n"),
    ];
    for (matrix, counts, wanted) in cases {
        assert!(rt; plain_text(rt.alloc(), matrix, counts)?.as_slice() == wanted);
    }
    Ok(())
}
