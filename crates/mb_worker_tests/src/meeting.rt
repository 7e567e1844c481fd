//! Two workers of a walk run at once.

use crate::models::{
    DIAGONAL, DIAGONAL_RINGS, PAIR_RINGS, first_of, have_sizes, ones_of, rings_by,
};
use mb_matrix::Matrix;
use mb_order::Order;
use mb_outside::Gate;
use mb_samples::{FOUR_BY_FOUR, certificate_of, matrix_of, table_of};
use mb_tables::Table;
use std::alloc::Global;
use std::sync::atomic::AtomicBool;
use std::sync::atomic::Ordering::SeqCst;
use std::test::Fail;
use std::thread::Threads;

/// A gate where each of two workers waits for the other one, so many turns at most. Items before
/// the first ring that both have a share of pass at once.
#[derive(Drop)]
struct Meeting {
    /// The number of such items.
    alone: u64,
    first: AtomicBool,
    second: AtomicBool,
    /// Whether one has waited in vain.
    is_missed: AtomicBool,
    /// How often a worker looks whether the other one has come.
    turns: u32,
}

impl Meeting {
    /// No worker has come.
    fn new(alone: u64, turns: u32) -> Meeting {
        Meeting {
            alone,
            first: AtomicBool::new(false),
            second: AtomicBool::new(false),
            is_missed: AtomicBool::new(false),
            turns,
        }
    }

    /// Marks one worker and waits for the mark of the other, unless one has waited in vain.
    fn meet(&self, mine: &AtomicBool, other: &AtomicBool) {
        mine.store(true, SeqCst);
        for _ in 0..self.turns {
            if other.load(SeqCst) || self.is_missed.load(SeqCst) {
                return;
            }
        }
        self.is_missed.store(true, SeqCst);
    }

    /// Whether the first worker came, whether the second one did, and whether one waited in vain.
    fn marks(&self) -> (bool, bool, bool) {
        (
            self.first.load(SeqCst),
            self.second.load(SeqCst),
            self.is_missed.load(SeqCst),
        )
    }
}

impl Gate for Meeting {
    fn pass(&self, worker: u32, item: u64) {
        if item < self.alone {
            return;
        }
        if worker == 0 {
            self.meet(&self.first, &self.second);
        } else {
            self.meet(&self.second, &self.first);
        }
    }
}

/// The marks that a walk by so many workers leaves, from a table with these rings.
fn marks_from<R: Threads + Sync>(
    rt: &R,
    alloc: Global,
    matrix: &Matrix,
    start: &Table,
    sizes: &str,
    gate: &Meeting,
    workers: u32,
) -> Result<(bool, bool, bool), Fail> {
    let certificate = certificate_of(alloc, matrix, Order::Grevlex)?;
    let rings = rings_by(rt, alloc, &certificate, start, workers, gate)?;
    if !have_sizes(alloc, &rings, sizes)? {
        return Err(Fail::from("other rings"));
    }
    Ok(gate.marks())
}

/// The marks of the walk from the diagonal of a 4 x 4 table, whose fiber has keys. Its ring 1 has
/// six tables.
fn marks_of<R: Threads + Sync>(
    rt: &R,
    alloc: Global,
    workers: u32,
    turns: u32,
) -> Result<(bool, bool, bool), Fail> {
    let matrix = matrix_of(alloc, FOUR_BY_FOUR)?;
    let start = table_of(alloc, DIAGONAL)?;
    let gate = Meeting::new(1, turns);
    marks_from(rt, alloc, &matrix, &start, DIAGONAL_RINGS, &gate, workers)
}

/// The marks of the walk from 2 in the first of 42 cells, whose fiber has no keys. Its ring 2 has
/// 41 tables.
fn unkeyed_marks<R: Threads + Sync>(
    rt: &R,
    alloc: Global,
    workers: u32,
    turns: u32,
) -> Result<(bool, bool, bool), Fail> {
    let matrix = ones_of(alloc, 42)?;
    let start = first_of(alloc, 42, 2)?;
    let gate = Meeting::new(2, turns);
    marks_from(rt, alloc, &matrix, &start, PAIR_RINGS, &gate, workers)
}

// Both of two workers come, and none waits in vain: they share ring 1.
#[test]
fn two_workers_meet(rt: HostRuntime) -> Result<(), Fail> {
    assert!(rt; marks_of(&rt, rt.alloc(), 2, 100_000_000)? == (true, true, false));
    Ok(())
}

// One worker alone waits in vain, so the gate tells the two cases apart.
#[test]
fn one_worker_meets_none(rt: HostRuntime) -> Result<(), Fail> {
    assert!(rt; marks_of(&rt, rt.alloc(), 1, 1000)? == (true, false, true));
    Ok(())
}

// The same without keys: two workers share ring 2.
#[test]
fn two_meet_without_keys(rt: HostRuntime) -> Result<(), Fail> {
    assert!(rt; unkeyed_marks(&rt, rt.alloc(), 2, 100_000_000)? == (true, true, false));
    Ok(())
}

#[test]
fn one_meets_none_without_keys(rt: HostRuntime) -> Result<(), Fail> {
    assert!(rt; unkeyed_marks(&rt, rt.alloc(), 1, 1000)? == (true, false, true));
    Ok(())
}
