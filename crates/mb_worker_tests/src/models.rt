//! Two fibers, and the walk from a table.

use mb_certificate::Certificate;
use mb_matrix::Matrix;
use mb_outside::Gate;
use mb_rings::Rings;
use mb_samples::{are_moves, counts_of, has_small_margins};
use mb_tables::Table;
use mb_walk::walk;
use std::alloc::Global;
use std::test::Fail;
use std::thread::Threads;

/// 3 in each diagonal cell of a 4 x 4 table, and else 0.
pub(crate) const DIAGONAL: &str = "3 0 0 0 0 3 0 0 0 0 3 0 0 0 0 3";

/// How many tables stand in each ring of it.
pub(crate) const DIAGONAL_RINGS: &str = "1 6 29 110 296 550 612 332 66 6";

/// How many tables stand in each ring of 2 in the first of 42 cells, where only the total is kept
/// and a move takes 1 from the last cell or adds it there: the pair of cells (first, first), then
/// (first, last), then (last, last) and 40 with the first cell, 40 others with the last cell, and
/// 820 pairs of the other cells. 903 tables have keys past 64 bits, 3 to the power of 41.
pub(crate) const PAIR_RINGS: &str = "1 1 41 40 820";

/// The design matrix of one row of ones, so many.
pub(crate) fn ones_of(alloc: Global, cells: u32) -> Result<Matrix, Fail> {
    let ones = vec![in alloc; 1i32; cells as usize]?;
    match Matrix::try_new(alloc, 1, cells, ones.as_slice()) {
        Ok(matrix) => Ok(matrix),
        Err(_) => Err(Fail::from("no design matrix")),
    }
}

/// A table of so many cells with so many in the first, and else 0.
pub(crate) fn first_of(alloc: Global, cells: usize, total: u32) -> Result<Table, Fail> {
    let mut counts = vec![in alloc; 0u32; cells]?;
    if let Some(first) = counts.first_mut() {
        *first = total;
    }
    Ok(Table::try_new(alloc, counts.as_slice())?)
}

/// The rings of a table, by so many workers.
pub(crate) fn rings_by<R: Threads + Sync, G: Gate + Sync>(
    rt: &R,
    alloc: Global,
    certificate: &Certificate,
    start: &Table,
    workers: u32,
    gate: &G,
) -> Result<Rings, Fail> {
    let (matrix, moves) = (certificate.matrix(), certificate.moves());
    if start.len() != matrix.cols() || moves.width() != matrix.cols() {
        return Err(Fail::from("another number of cells"));
    }
    if !are_moves(matrix, moves) || !has_small_margins(alloc, matrix, start) {
        return Err(Fail::from("other margins"));
    }
    if workers < 1 || workers > 64 {
        return Err(Fail::from("another number of workers"));
    }
    match walk(rt, alloc, matrix, moves, start, 2_000_000, workers, gate) {
        Ok(rings) => Ok(rings),
        Err(_) => Err(Fail::from("no rings")),
    }
}

/// Whether rings have so many tables each.
pub(crate) fn have_sizes(alloc: Global, rings: &Rings, text: &str) -> Result<bool, Fail> {
    let sizes = counts_of(alloc, text)?;
    let same = |(ring, size): (&Vec<Table>, &u32)| ring.len() == *size as usize;
    Ok(rings.all().len() == sizes.len() && rings.all().iter().zip(sizes.iter()).all(same))
}
