//! Tables and moves.

use mb_tables::{Move, MoveFault, Moves, Sign, Table, TableFault};
use std::alloc::{AllocError, Global};
use std::cmp::Ordering;
use std::test::Fail;

/// The table that a step makes of these counts, or the counts where the step is refused.
fn stepped(
    alloc: Global,
    counts: &[u32],
    entries: &[i32],
    sign: Sign,
) -> Result<(bool, Table), Fail> {
    let mut table = Table::try_new(alloc, counts)?;
    let z = Move::try_new(alloc, entries)?;
    if table.len() != z.len() {
        return Err(Fail::from("other lengths"));
    }
    let moved = table.apply(&z, sign);
    Ok((moved, table))
}

/// The widest count.
const TOP: u32 = u32::MAX;

/// Counts, a move, its sign, whether the step is made, and the counts after it.
const STEPS: [(&[u32], &[i32], Sign, bool, &[u32]); 8] = [
    (
        &[3, 1, 1, 3],
        &[1, -1, -1, 1],
        Sign::Plus,
        true,
        &[4, 0, 0, 4],
    ),
    (
        &[3, 1, 1, 3],
        &[1, -1, -1, 1],
        Sign::Minus,
        true,
        &[2, 2, 2, 2],
    ),
    (
        &[4, 0, 0, 4],
        &[1, -1, -1, 1],
        Sign::Plus,
        false,
        &[4, 0, 0, 4],
    ),
    (
        &[0, 0],
        &[2147483647, -2147483647],
        Sign::Plus,
        false,
        &[0, 0],
    ),
    (
        &[0, 2147483647],
        &[2147483647, -2147483647],
        Sign::Plus,
        true,
        &[2147483647, 0],
    ),
    (&[TOP], &[0], Sign::Plus, true, &[TOP]),
    (&[TOP], &[1], Sign::Plus, false, &[TOP]),
    (&[TOP, 1], &[-1, 1], Sign::Minus, false, &[TOP, 1]),
];

// By hand: each count and entry of the sum, the widest counts on either side.
#[test]
fn steps(rt: HostRuntime) -> Result<(), Fail> {
    for (counts, entries, sign, moved, after) in STEPS {
        let (answer, table) = stepped(rt.alloc(), counts, entries, sign)?;
        assert!(rt; answer == moved && table.as_slice() == after);
    }
    Ok(())
}

/// Whether a table of 64 counts is made and one of 65 is refused.
fn are_widths_of_tables_kept(alloc: Global) -> Result<bool, Fail> {
    let widest = [7; 64];
    let made = Table::try_new(alloc, &widest)?.as_slice() == widest.as_slice();
    let refused = matches!(
        Table::try_new(alloc, &[0; 65]),
        Err(TableFault::TooManyCells)
    );
    Ok(made && refused)
}

/// Whether tables are compared by the first count that differs.
fn is_first_difference_the_order(alloc: Global) -> Result<bool, Fail> {
    let low = Table::try_new(alloc, &[1, 9])?;
    let high = Table::try_new(alloc, &[2, 0])?;
    Ok(low.cmp(&high) == Ordering::Less && high.cmp(&low) == Ordering::Greater && low != high)
}

/// Whether a copy of a table equals it.
fn is_copy_equal(alloc: Global) -> Result<bool, Fail> {
    let table = Table::try_new(alloc, &[1, 9])?;
    let copy = table.try_copy()?;
    Ok(copy == table)
}

/// So many entries of which the first and the last are these, and the others 0.
fn ends(alloc: Global, cells: u32, first: i32, last: i32) -> Result<Vec<i32>, AllocError> {
    let mut entries = Vec::new(alloc);
    for cell in 1..=cells {
        entries.push(if cell == 1 {
            first
        } else if cell == cells {
            last
        } else {
            0
        })?;
    }
    Ok(entries)
}

/// Whether a move of 64 cells has its entries, one by one and together.
fn are_entries_kept(alloc: Global) -> Result<bool, Fail> {
    let entries = ends(alloc, 64, -5, 2147483647)?;
    let z = Move::try_new(alloc, entries.as_slice())?;
    let mut copied = vec![in alloc; 7i32; 64]?;
    if z.len() != 64 || copied.len() != 64 {
        return Ok(false);
    }
    z.copy_to_slice(copied.as_mut_slice());
    Ok(copied == entries && z.entry(0) == -5 && z.entry(1) == 0 && z.entry(63) == 2147483647)
}

/// Whether a step of 64 cells is taken and taken back.
fn is_step_taken_back(alloc: Global) -> Result<bool, Fail> {
    let ones = vec![in alloc; 1u32; 64]?;
    let mut table = Table::try_new(alloc, ones.as_slice())?;
    let z = Move::try_new(alloc, ends(alloc, 64, -1, 1)?.as_slice())?;
    if z.len() != table.len() || !table.apply(&z, Sign::Plus) {
        return Ok(false);
    }
    let moved = table.as_slice().first() == Some(&0) && table.as_slice().last() == Some(&2);
    if table.len() != z.len() {
        return Ok(false);
    }
    table.take_back(&z, Sign::Plus);
    Ok(moved && table.as_slice() == ones.as_slice())
}

/// Whether a move is refused where it is too wide or has an entry that is too large.
fn are_moves_refused(alloc: Global) -> Result<bool, Fail> {
    let wide = matches!(Move::try_new(alloc, &[0; 65]), Err(MoveFault::TooManyCells));
    let large = matches!(
        Move::try_new(alloc, &[1, i32::MIN, i32::MIN]),
        Err(MoveFault::EntryTooLarge { cell: 1 })
    );
    Ok(wide && large)
}

/// Whether a list has the move that is pushed.
fn is_move_pushed(alloc: Global) -> Result<bool, Fail> {
    let mut moves = Moves::new(alloc, 2);
    let z = Move::try_new(alloc, &[1, -1])?;
    if z.len() != 2 {
        return Err(Fail::from("another length"));
    }
    moves.push(z)?;
    Ok(moves.len() == 1 && moves.width() == 2)
}

// By hand: up to 64 cells, the order of lists, copies, refusals, a list of one move.
#[test]
fn tables_and_moves(rt: HostRuntime) -> Result<(), Fail> {
    assert!(rt; are_widths_of_tables_kept(rt.alloc())?);
    assert!(rt; is_first_difference_the_order(rt.alloc())?);
    assert!(rt; is_copy_equal(rt.alloc())?);
    assert!(rt; are_entries_kept(rt.alloc())?);
    assert!(rt; is_step_taken_back(rt.alloc())?);
    assert!(rt; are_moves_refused(rt.alloc())?);
    assert!(rt; is_move_pushed(rt.alloc())?);
    Ok(())
}
