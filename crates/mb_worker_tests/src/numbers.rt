//! The numbers of exact tests by several workers.

ghost use Rattle.std.specs.Prelude.{◌≡◌, IfOk};
ghost use Rattle.mb_matrix.specs.Measure.{IsMeasureOf};

use crate::models::{DIAGONAL, DIAGONAL_RINGS, first_of, ones_of};
use mb_certificate::Certificate;
use mb_desk::{Figures, numbers};
use mb_matrix::{Matrix, Measure, Scale};
use mb_order::Order;
use mb_outside::NoGate;
use mb_samples::{FOUR_BY_FOUR, certificate_of, counts_of, has_small_margins, matrix_of, table_of};
use mb_tables::Table;
use std::alloc::Global;
use std::test::Fail;
use std::thread::Threads;

/// The numbers that are wanted of a table, and whether its tables are claimed by keys.
#[derive(Clone, Copy)]
struct Wanted {
    /// How many tables stand in each ring.
    rings: &'static str,
    weight: u128,
    below: u128,
    whole: u128,
    is_claimed: bool,
}

/// The measure of a scale on a matrix, where each cell has the base number 1.
fn measure_of(alloc: Global, matrix: &Matrix, scale: Scale) -> Result<Measure, Fail>
    ensures { IfOk result (IsMeasureOf matrix.now) }
{
    let base = vec![in alloc; 1u32; matrix.cols() as usize]?;
    if base.len() != matrix.cols() as usize {
        return Err(Fail::from("another number of base numbers"));
    }
    match Measure::try_new(alloc, matrix, scale, base.as_slice()) {
        Ok(measure) => Ok(measure),
        Err(_) => Err(Fail::from("no measure")),
    }
}

/// The figures of a table by a certificate, with a measure on its matrix and so many workers.
fn figures_by<R: Threads + Sync>(
    rt: &R,
    alloc: Global,
    certificate: &Certificate,
    measure: &Measure,
    table: &Table,
    workers: u32,
) -> Result<Figures, Fail>
    requires { IsMeasureOf certificate.now.matrix measure.now }
{
    let matrix = certificate.matrix();
    if table.len() != matrix.cols() || !has_small_margins(alloc, matrix, table) {
        return Err(Fail::from("no table of the matrix"));
    }
    if workers < 1 || workers > 64 {
        return Err(Fail::from("another number of workers"));
    }
    match numbers(
        rt,
        alloc,
        certificate,
        measure,
        table,
        2_000_000,
        workers,
        &NoGate,
    ) {
        Ok(figures) => Ok(figures),
        Err(_) => Err(Fail::from("no figures")),
    }
}

/// Whether figures are those that are wanted.
fn are_wanted(alloc: Global, figures: &Figures, wanted: &Wanted) -> Result<bool, Fail> {
    let rings = counts_of(alloc, wanted.rings)?;
    Ok(
        figures.rings.as_slice() == rings.as_slice()
            && (figures.weight, figures.below, figures.whole)
                == (wanted.weight, wanted.below, wanted.whole)
            && figures.claims.is_some() == wanted.is_claimed,
    )
}

/// The first of these numbers of workers by which a table has other figures than those wanted.
fn first_other<R: Threads + Sync>(
    rt: &R,
    alloc: Global,
    matrix: &Matrix,
    scale: Scale,
    table: &Table,
    wanted: &Wanted,
    choices: &[u32],
) -> Result<Option<u32>, Fail> {
    let measure = measure_of(alloc, matrix, scale)?;
    let certificate = certificate_of(alloc, matrix, Order::Grevlex)?;
    for workers in choices {
        let figures = figures_by(rt, alloc, &certificate, &measure, table, *workers)?;
        if !are_wanted(alloc, &figures, wanted)? {
            return Ok(Some(*workers));
        }
    }
    Ok(None)
}

// Worked: by rows of three the diagonal of a 4 x 4 table has 2008 tables in its fiber, 24 of which
// weigh 1; the sizes of the rings are those of a plain search by the moves of two rows and columns.
#[test]
fn the_diagonal(rt: HostRuntime) -> Result<(), Fail> {
    let (rt, alloc) = (&rt, rt.alloc());
    let wanted = Wanted {
        rings: DIAGONAL_RINGS,
        weight: 1,
        below: 24,
        whole: 369_600,
        is_claimed: true,
    };
    let matrix = matrix_of(alloc, FOUR_BY_FOUR)?;
    let table = table_of(alloc, DIAGONAL)?;
    let scale = Scale::Rows(counts_of(alloc, "1 2 3 4")?);
    let other = first_other(rt, alloc, &matrix, scale, &table, &wanted, &[1, 2, 7, 64])?;
    assert_eq!(rt; other, None);
    Ok(())
}

// Worked: only the total is kept, so there are C(20, 3) tables, which together weigh 18^3, and 18
// of them weigh 1. A move takes 1 from the last cell or adds it there: each of the three is one
// step away in the last cell and two in another. The keys are past 32 bits, since 4^17 is 2^34.
#[test]
fn eighteen_cells(rt: HostRuntime) -> Result<(), Fail> {
    let (rt, alloc) = (&rt, rt.alloc());
    let wanted = Wanted {
        rings: "1 1 17 17 152 136 816",
        weight: 1,
        below: 18,
        whole: 5832,
        is_claimed: true,
    };
    let matrix = ones_of(alloc, 18)?;
    let table = first_of(alloc, 18, 3)?;
    let other = first_other(
        rt,
        alloc,
        &matrix,
        Scale::All,
        &table,
        &wanted,
        &[1, 2, 7, 64],
    )?;
    assert_eq!(rt; other, None);
    Ok(())
}

// Worked: there are C(66, 3) tables, which together weigh 64^3, and 64 of them weigh 1. Their keys
// are past 64 bits, so none is claimed.
#[test]
fn sixty_four_cells(rt: HostRuntime) -> Result<(), Fail> {
    let (rt, alloc) = (&rt, rt.alloc());
    let wanted = Wanted {
        rings: "1 1 63 63 2015 1953 41664",
        weight: 1,
        below: 64,
        whole: 262_144,
        is_claimed: false,
    };
    let matrix = ones_of(alloc, 64)?;
    let table = first_of(alloc, 64, 3)?;
    let other = first_other(rt, alloc, &matrix, Scale::All, &table, &wanted, &[7])?;
    assert_eq!(rt; other, None);
    Ok(())
}
