//! Moves of texts.

use mb_tables::{MOST_MOVES, Move, Moves};
use std::alloc::Global;
use std::test::Fail;

/// The entries of a line.
fn entries_of(alloc: Global, line: &str) -> Result<Vec<i32>, Fail> {
    let mut entries = Vec::new(alloc);
    for word in line.split(' ') {
        entries.push(word.parse::<i32>()?)?;
    }
    Ok(entries)
}

/// Adds a move, if it has the width of the others.
fn push_move(alloc: Global, moves: &mut Moves, entries: &[i32]) -> Result<(), Fail> {
    match Move::try_new(alloc, entries) {
        Ok(z) if z.len() == moves.width() && moves.len() < MOST_MOVES => match moves.push(z) {
            Ok(()) => Ok(()),
            Err(_) => Err(Fail::from("no memory")),
        },
        _ => Err(Fail::from("no move")),
    }
}

/// The moves of a text, one a line, without that of a number from 1; for 0 all of them.
pub(crate) fn moves_of(
    alloc: Global,
    cells: u32,
    text: &str,
    without: usize,
) -> Result<Moves, Fail> {
    if cells == 0 || cells > 64 {
        return Err(Fail::from("no moves"));
    }
    let mut moves = Moves::new(alloc, cells);
    if text.is_empty() {
        return Ok(moves);
    }
    for (place, line) in text.split('\n').enumerate() {
        if place.wrapping_add(1) != without {
            push_move(alloc, &mut moves, entries_of(alloc, line)?.as_slice())?;
        }
    }
    Ok(moves)
}
