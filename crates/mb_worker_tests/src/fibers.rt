//! The rings of small fibers, by several numbers of workers.

use crate::models::{PAIR_RINGS, first_of, have_sizes, ones_of, rings_by};
use mb_certificate::Certificate;
use mb_order::Order;
use mb_outside::NoGate;
use mb_samples::{certificate_of, matrix_of, table_of};
use mb_tables::Table;
use std::alloc::Global;
use std::test::Fail;
use std::thread::Threads;

/// A table and its rings.
#[derive(Clone, Copy)]
struct Fiber {
    /// The text of the design matrix.
    matrix: &'static str,
    /// The order that completes its rules.
    order: Order,
    observed: &'static str,
    /// How many tables stand in each ring.
    rings: &'static str,
}

/// Numbers of workers: fewer than the tables of most rings, and more.
const WORKERS: [u32; 5] = [1, 2, 3, 7, 64];

/// Whether a table has these rings, by each number of workers.
fn has_rings<R: Threads + Sync>(
    rt: &R,
    alloc: Global,
    certificate: &Certificate,
    start: &Table,
    sizes: &str,
) -> Result<bool, Fail> {
    for workers in &WORKERS {
        let rings = rings_by(rt, alloc, certificate, start, *workers, &NoGate)?;
        if !have_sizes(alloc, &rings, sizes)? {
            return Ok(false);
        }
    }
    Ok(true)
}

/// Whether a fiber has its rings.
fn is_right<R: Threads + Sync>(rt: &R, alloc: Global, fiber: &Fiber) -> Result<bool, Fail> {
    let matrix = matrix_of(alloc, fiber.matrix)?;
    let certificate = certificate_of(alloc, &matrix, fiber.order)?;
    let start = table_of(alloc, fiber.observed)?;
    has_rings(rt, alloc, &certificate, &start, fiber.rings)
}

/// The first fiber that has others.
fn first_wrong<R: Threads + Sync>(
    rt: &R,
    alloc: Global,
    fibers: &[Fiber],
) -> Result<Option<usize>, Fail> {
    for (k, fiber) in fibers.iter().enumerate() {
        if !is_right(rt, alloc, fiber)? {
            return Ok(Some(k));
        }
    }
    Ok(None)
}

/// Fibers of up to six cells, from tests/outside/exact_model; the last has no further table.
const FIBERS: [Fiber; 12] = [
    Fiber {
        matrix: "1 3 1 1 1",
        order: Order::Grevlex,
        observed: "2 4 0",
        rings: "1 2 5 5 6 4 3 1 1",
    },
    Fiber {
        matrix: "2 3 1 1 1 0 0 0",
        order: Order::Lex,
        observed: "1 3 1",
        rings: "1 4 4 5 3 2 1 1",
    },
    Fiber {
        matrix: "3 6 1 1 1 1 1 1 1 1 0 1 1 0 1 0 1 0 0 0",
        order: Order::Grevlex,
        observed: "1 1 1 0 1 2",
        rings: "1 5 5 6 1 1",
    },
    Fiber {
        matrix: "2 4 1 1 1 1 0 0 1 0",
        order: Order::Grevlex,
        observed: "1 2 2 1",
        rings: "1 4 4 4 1 1",
    },
    Fiber {
        matrix: "1 3 1 1 1",
        order: Order::Lex,
        observed: "0 1 3",
        rings: "1 3 4 5 1 1",
    },
    Fiber {
        matrix: "2 4 1 1 1 1 1 1 0 1",
        order: Order::Grevlex,
        observed: "1 1 0 1",
        rings: "1 4 3 2",
    },
    Fiber {
        matrix: "2 4 1 1 1 1 2 2 1 1",
        order: Order::Grevlex,
        observed: "1 0 1 2",
        rings: "1 3 3 1",
    },
    Fiber {
        matrix: "3 2 1 1 1 1 1 1",
        order: Order::Lex,
        observed: "3 2",
        rings: "1 2 2 1",
    },
    Fiber {
        matrix: "3 5 1 1 1 1 1 1 2 2 2 0 1 2 0 2 2",
        order: Order::Lex,
        observed: "2 0 2 1 1",
        rings: "1 3 2",
    },
    Fiber {
        matrix: "1 2 2 2",
        order: Order::Lex,
        observed: "1 4",
        rings: "1 2 1 1 1",
    },
    Fiber {
        matrix: "2 6 1 1 1 1 1 1 2 1 1 0 0 0",
        order: Order::Grevlex,
        observed: "0 0 2 0 0 0",
        rings: "1 2 3",
    },
    Fiber {
        matrix: "3 3 1 1 1 0 1 0 2 0 1",
        order: Order::Lex,
        observed: "1 2 2",
        rings: "1",
    },
];

#[test]
fn small_fibers(rt: HostRuntime) -> Result<(), Fail> {
    assert_eq!(rt; first_wrong(&rt, rt.alloc(), &FIBERS)?, None);
    Ok(())
}

/// Whether 2 in the first of 42 cells has its rings.
fn has_pairs<R: Threads + Sync>(rt: &R, alloc: Global) -> Result<bool, Fail> {
    let matrix = ones_of(alloc, 42)?;
    let certificate = certificate_of(alloc, &matrix, Order::Grevlex)?;
    let start = first_of(alloc, 42, 2)?;
    has_rings(rt, alloc, &certificate, &start, PAIR_RINGS)
}

// Worked, and counted by a plain search: no keys of 64 bits.
#[test]
fn pairs_of_cells(rt: HostRuntime) -> Result<(), Fail> {
    assert!(rt; has_pairs(&rt, rt.alloc())?);
    Ok(())
}
