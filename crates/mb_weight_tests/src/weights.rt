//! Weights, sums of weights, fractions and decimals, beside the plain model in
//! tests/outside/weight_model.

ghost use Rattle.std.specs.Bool.{OnTrue};
ghost use Rattle.std.specs.Prelude.{◌≡◌, ◌≤◌, ◌++◌, ◌∷◌, All, IfOk, [], length};
ghost use Rattle.mb_tables.specs.Lists.{In};
ghost use Rattle.mb_weights.specs.PValue.{AreSmall, tables_in};

use crate::weight_cases::{DECIMALS, FRACTIONS, WEIGHTS};
use mb_matrix::{Matrix, Measure, Scale};
use mb_tables::Table;
use mb_weights::{Sum, Weighed, decimals, fraction, fraction_by, weight};
use std::alloc::Global;
use std::test::Fail;
use std::thread::Threads;

/// A table under a measure, and its weight.
#[derive(Clone, Copy)]
pub(crate) struct Case {
    /// The group of each cell.
    pub(crate) groups: &'static str,
    /// The base number of each cell.
    pub(crate) bases: &'static str,
    /// The count of each cell.
    pub(crate) counts: &'static str,
    /// The weight, if it is below 2^128.
    pub(crate) weight: Option<u128>,
}

/// Some tables under a measure, the observed one first.
#[derive(Clone, Copy)]
pub(crate) struct Fiber {
    /// The group of each cell.
    pub(crate) groups: &'static str,
    /// The base number of each cell.
    pub(crate) bases: &'static str,
    /// The counts of all tables, one after the other.
    pub(crate) tables: &'static str,
    /// The observed weight and the two sums, if the sum of all is below 2^128.
    pub(crate) weighed: Option<(u128, u128, u128)>,
}

/// The numbers of a text.
fn numbers_of(alloc: Global, text: &str) -> Result<Vec<u32>, Fail> {
    let mut numbers = Vec::new(alloc);
    for word in text.split(' ') {
        numbers.push(word.parse::<u32>()?)?;
    }
    Ok(numbers)
}

/// The number of the last row of the matrix of some groups.
fn last_row(groups: &[u32]) -> u32 {
    groups.iter().copied().max().unwrap_or(0).min(60) + 2
}

/// The design matrix of some groups: a row of zeros, and a row for each group with a 1 at its
/// cells.
fn matrix_of(alloc: Global, groups: &str) -> Result<Matrix, Fail> {
    let groups = numbers_of(alloc, groups)?;
    let rows = last_row(groups.as_slice());
    let mut entries = Vec::new(alloc);
    for row in 0..rows {
        for group in &groups {
            entries.push(i32::from(row > 0 && row - 1 == *group))?;
        }
    }
    if groups.len() > 64 || entries.len() != rows as usize * groups.len() {
        return Err(Fail::from("another number of entries"));
    }
    Ok(Matrix::try_new(alloc, rows, groups.len() as u32, entries.as_slice())?)
}

/// The rows of a matrix of groups, with the row of zeros named so often in front, which raises the
/// groups' numbers.
fn scale_of(alloc: Global, rows: u32, before: u32) -> Result<Scale, Fail> {
    let mut numbers = Vec::new(alloc);
    for _ in 0..before {
        numbers.push(1)?;
    }
    for row in 1..rows.min(64) {
        numbers.push(row + 1)?;
    }
    Ok(Scale::Rows(numbers))
}

/// The measure of such a scale.
fn measure_of(alloc: Global, matrix: &Matrix, bases: &str, before: u32) -> Result<Measure, Fail>
    ensures { IfOk result (λ measure. length measure.bases ≡ length matrix.now.columns) }
{
    let bases = numbers_of(alloc, bases)?;
    if bases.len() != matrix.cols() as usize {
        return Err(Fail::from("another number of base numbers"));
    }
    let scale = scale_of(alloc, matrix.rows(), before)?;
    Ok(Measure::try_new(alloc, matrix, scale, bases.as_slice())?)
}

/// The weight that is found of a case.
fn weight_of(alloc: Global, case: &Case, before: u32) -> Result<Option<u128>, Fail> {
    let matrix = matrix_of(alloc, case.groups)?;
    let measure = measure_of(alloc, &matrix, case.bases, before)?;
    let counts = numbers_of(alloc, case.counts)?;
    let table = Table::try_new(alloc, counts.as_slice())?;
    if table.len() != matrix.cols() {
        return Err(Fail::from("another number of counts"));
    }
    Ok(weight(&matrix, &measure, &table))
}

/// Whether the weight of a case is found, also with groups of numbers 63 and more.
fn is_weight(alloc: Global, case: &Case) -> Result<bool, Fail> {
    let found = weight_of(alloc, case, 0)?;
    Ok(found == case.weight && weight_of(alloc, case, 63)? == case.weight)
}

/// The first case whose weight isn't the one that is found.
fn first_wrong_weight(alloc: Global, cases: &[Case]) -> Result<Option<usize>, Fail> {
    for (k, case) in cases.iter().enumerate() {
        if !is_weight(alloc, case)? {
            return Ok(Some(k));
        }
    }
    Ok(None)
}

// Worked ones, both sides of 2^128 in each way that a weight can come near it, and random ones.
#[test]
fn weights(rt: HostRuntime) -> Result<(), Fail> {
    assert_eq!(rt; first_wrong_weight(rt.alloc(), &WEIGHTS)?, None);
    Ok(())
}

/// The tables of these counts.
fn ring_of(alloc: Global, cells: u32, counts: &[u32]) -> Result<Vec<Table>, Fail>
    ensures { IfOk result (λ ring. All (λ table. length table ≡ cells) ring.items) }
{
    let mut ring = Vec::new(alloc);
    if cells == 0 {
        return Ok(ring);
    }
    for table in counts.chunks_exact(cells as usize) {
        let table = Table::try_new(alloc, table)?;
        if table.len() != cells {
            return Err(Fail::from("another number of counts"));
        }
        ring.push(table)?;
    }
    Ok(ring)
}

/// The rings of an observed table, and of the others in two parts.
fn rings_of(
    alloc: Global,
    observed: &Table,
    near: Vec<Table>,
    far: Vec<Table>,
) -> Result<Vec<Vec<Table>>, Fail>
    ensures { IfOk result (λ rings.
        tables_in rings.items ≡ observed.now ∷ (near.items ++ (far.items ++ []))) }
{
    let mut first = Vec::new(alloc);
    first.push(observed.try_copy()?)?;
    let mut rings = Vec::new(alloc);
    rings.push(first)?;
    rings.push(near)?;
    rings.push(far)?;
    Ok(rings)
}

/// Whether each ring has at most 1,000 tables.
fn are_small(rings: &[Vec<Table>]) -> bool
    ensures { OnTrue result (AreSmall rings.now) }
{
    for ring in rings {
        if ring.len() > 1_000 {
            return false;
        }
    }
    true
}

/// What is found by so many workers, or by no thread but this one where there are 0.
fn found_by<R: Threads + Sync>(
    rt: &R,
    matrix: &Matrix,
    measure: &Measure,
    observed: &Table,
    rings: &[Vec<Table>],
    workers: u32,
) -> Option<Weighed>
    requires measure { length measure.now.bases ≡ length matrix.now.columns }
    requires tables { All (λ table. length table ≡ length matrix.now.columns)
        (tables_in rings.now) }
    requires listed { In observed.now (tables_in rings.now) }
    requires small { AreSmall rings.now }
    requires few_workers { workers ≤ 64 }
{
    if workers == 0 {
        fraction(matrix, measure, observed, rings)
    } else {
        fraction_by(rt, matrix, measure, observed, rings, workers)
    }
}

/// What is found of a case by so many workers: the observed table is in a ring of its own, and the
/// others are in two.
fn weighed<R: Threads + Sync>(
    rt: &R,
    alloc: Global,
    case: &Fiber,
    workers: u32,
) -> Result<Option<(u128, u128, u128)>, Fail>
    requires { workers ≤ 64 }
{
    let matrix = matrix_of(alloc, case.groups)?;
    let measure = measure_of(alloc, &matrix, case.bases, 0)?;
    let cells = matrix.cols() as usize;
    let tables = numbers_of(alloc, case.tables)?;
    if tables.len() < cells {
        return Err(Fail::from("no observed table"));
    }
    let (observed, others) = tables.as_slice().split_at(cells);
    let (near, far) = others.split_at(others.len() / cells / 2 * cells);
    let observed = Table::try_new(alloc, observed)?;
    if observed.len() != cells as u32 {
        return Err(Fail::from("another number of counts"));
    }
    let near = ring_of(alloc, cells as u32, near)?;
    let far = ring_of(alloc, cells as u32, far)?;
    let rings = rings_of(alloc, &observed, near, far)?;
    let rings = rings.as_slice();
    if !are_small(rings) {
        return Err(Fail::from("too many tables"));
    }
    let found = found_by(rt, &matrix, &measure, &observed, rings, workers);
    Ok(found.map(|found| (found.weight, found.below, found.whole)))
}

/// Whether the observed weight and the sums of a case are those that are found, by 0 to 3
/// workers and by 64.
fn is_weighed<R: Threads + Sync>(rt: &R, alloc: Global, case: &Fiber) -> Result<bool, Fail> {
    for workers in 0..4u32 {
        if weighed(rt, alloc, case, workers)? != case.weighed {
            return Ok(false);
        }
    }
    Ok(weighed(rt, alloc, case, 64)? == case.weighed)
}

/// The first case whose observed weight and sums aren't those that are found.
fn first_wrong_fiber<R: Threads + Sync>(
    rt: &R,
    alloc: Global,
    cases: &[Fiber],
) -> Result<Option<usize>, Fail> {
    for (k, case) in cases.iter().enumerate() {
        if !is_weighed(rt, alloc, case)? {
            return Ok(Some(k));
        }
    }
    Ok(None)
}

// Whole fibers, worked and random, and lists of tables whose weights add up to 2^128 and just not.
#[test]
fn fractions(rt: HostRuntime) -> Result<(), Fail> {
    assert_eq!(rt; first_wrong_fiber(&rt, rt.alloc(), &FRACTIONS)?, None);
    Ok(())
}

/// Whether these are the decimals of a fraction.
fn are_decimals(num: u128, den: u128, text: &[u8; 8]) -> bool {
    den > 0 && num <= den && decimals(num, den) == *text
}

/// The first fraction whose decimals aren't those that are found.
fn first_wrong_decimals(cases: &[(u128, u128, &'static [u8; 8])]) -> Option<usize> {
    for (k, &(num, den, text)) in cases.iter().enumerate() {
        if !are_decimals(num, den, text) {
            return Some(k);
        }
    }
    None
}

// Worked ones, both sides of a digit, and random ones.
#[test]
fn fractions_in_decimals(rt: HostRuntime) -> Result<(), Fail> {
    assert_eq!(rt; first_wrong_decimals(&DECIMALS), None);
    Ok(())
}

// By hand: a sum up to the last number of 128 bits, and no further.
#[test]
fn sums(rt: HostRuntime) -> Result<(), Fail> {
    let mut sum = Sum::new();
    for (more, fits, value) in [
        (0, true, 0),
        (1 << 127, true, 1 << 127),
        (1 << 127, false, 1 << 127),
        (u128::MAX, false, 1 << 127),
        ((1 << 127) - 2, true, u128::MAX - 1),
        (2, false, u128::MAX - 1),
        (1, true, u128::MAX),
        (0, true, u128::MAX),
        (1, false, u128::MAX),
    ] {
        let added = sum.add(more);
        assert_eq!(rt; (added, sum.value()), (fits, value));
    }
    Ok(())
}
