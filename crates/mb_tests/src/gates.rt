//! The gate of the walk.

use crate::run::reach;
use crate::walks::{Answer, walked};
use mb_outside::Gate;
use std::sync::atomic::Ordering::SeqCst;
use std::sync::atomic::{AtomicBool, AtomicU64};
use std::test::Fail;

/// A gate that worker 0 alone has to pass, with the items 0, 1, 2 and so on in turn.
#[derive(Drop)]
struct InTurn {
    next: AtomicU64,
    astray: AtomicBool,
}

impl Gate for InTurn {
    fn pass(&self, worker: u32, item: u64) {
        let next = self.next.fetch_add(1, SeqCst);
        if worker != 0 || item != next {
            self.astray.store(true, SeqCst);
        }
    }
}

// By hand: each of the five tables is expanded once, in the order in which they are printed.
#[test]
fn the_gate_is_passed_once_a_table(rt: HostRuntime) -> Result<(), Fail> {
    let gate = InTurn {
        next: AtomicU64::new(0),
        astray: AtomicBool::new(false),
    };
    let matrix = b"4 4\n1 1 0 0\n0 0 1 1\n1 0 1 0\n0 1 0 1\n";
    let text = reach(
        &rt,
        rt.alloc(),
        &gate,
        matrix,
        b"1 4\n1 -1 -1 1\n",
        b"1 4\n3 1 1 3\n",
    )?;
    assert!(rt; text.as_slice().starts_with(b"tables 5\n"));
    assert!(rt; gate.next.load(SeqCst) == 5 && !gate.astray.load(SeqCst));
    Ok(())
}

// By hand: the start is expanded, and its one neighbour is a table too many.
#[test]
fn the_gate_is_passed_before_a_table_is_expanded(rt: HostRuntime) -> Result<(), Fail> {
    let gate = InTurn {
        next: AtomicU64::new(0),
        astray: AtomicBool::new(false),
    };
    let answer = walked(&rt, rt.alloc(), &gate, &[0, 1], 1)?;
    assert!(rt; answer == Answer::TooLarge { seen: 2 });
    assert!(rt; gate.next.load(SeqCst) == 1 && !gate.astray.load(SeqCst));
    Ok(())
}
