//! The numbers of random tables of up to six cells, beside the plain model in
//! tests/outside/exact_model.

use crate::fiber_cases::CASES;
use crate::numbers::{Sample, numbers_of, total};
use mb_desk::{Figures, NumbersFault};
use mb_order::Order;
use mb_samples::counts_of;
use std::alloc::Global;
use std::test::Fail;
use std::thread::Threads;

/// A table under a measure of a model, and the numbers of its exact test.
#[derive(Clone, Copy)]
pub(crate) struct Case {
    /// The text of the design matrix.
    pub(crate) matrix: &'static str,
    /// The order that completes its rules.
    pub(crate) order: Order,
    /// The rows of the scale; where there are none, it is that of all cells.
    pub(crate) scale: &'static str,
    pub(crate) base: &'static str,
    pub(crate) observed: &'static str,
    /// How many tables stand in each ring.
    pub(crate) rings: &'static str,
    /// The weight of the table and the two sums.
    pub(crate) weighed: (u128, u128, u128),
}

/// What is found of a case within a limit.
fn found<R: Threads + Sync>(
    rt: &R,
    alloc: Global,
    case: &Case,
    limit: u32,
) -> Result<Result<Figures, NumbersFault>, Fail> {
    let scale = counts_of(alloc, case.scale)?;
    let base = counts_of(alloc, case.base)?;
    let table = counts_of(alloc, case.observed)?;
    let sample = Sample {
        matrix: case.matrix,
        order: case.order,
        scale: scale.as_slice(),
        base: base.as_slice(),
        table: table.as_slice(),
        limit,
    };
    numbers_of(rt, alloc, &sample)
}

/// Whether these are the figures of a case.
fn are_figures(found: &Result<Figures, NumbersFault>, case: &Case, rings: &[u32]) -> bool {
    match found {
        Ok(figures) => {
            figures.rings.as_slice() == rings
                && (figures.weight, figures.below, figures.whole) == case.weighed
        }
        Err(_) => false,
    }
}

/// Whether a fiber is refused that has so many tables.
fn is_too_large(found: &Result<Figures, NumbersFault>, tables: u32) -> bool {
    match found {
        Err(NumbersFault::TooLarge { seen }) => *seen == tables,
        _ => false,
    }
}

/// Whether a case has its numbers where its tables are the limit, and is refused by a limit of one
/// less.
fn is_right<R: Threads + Sync>(rt: &R, alloc: Global, case: &Case) -> Result<bool, Fail> {
    let rings = counts_of(alloc, case.rings)?;
    let tables = total(rings.as_slice());
    if !are_figures(&found(rt, alloc, case, tables)?, case, rings.as_slice()) {
        return Ok(false);
    }
    if tables < 2 {
        return Ok(true);
    }
    Ok(is_too_large(&found(rt, alloc, case, tables - 1)?, tables))
}

/// The first case that hasn't its numbers.
fn first_wrong<R: Threads + Sync>(
    rt: &R,
    alloc: Global,
    cases: &[Case],
) -> Result<Option<usize>, Fail> {
    for (k, case) in cases.iter().enumerate() {
        if !is_right(rt, alloc, case)? {
            return Ok(Some(k));
        }
    }
    Ok(None)
}

// From the plain model: a list of the whole fiber, and a search by the moves.
#[test]
fn random_tables(rt: HostRuntime) -> Result<(), Fail> {
    assert_eq!(rt; first_wrong(&rt, rt.alloc(), &CASES)?, None);
    Ok(())
}
