//! A list of moves of one width, as a move file has it.

ghost use Rattle.std.specs.Prelude.{◌≡◌, ◌==◌, ◌<◌, ◌≤◌, ◌++◌, ◌∷◌, [], OnErr, OnOk, Some, length, slice_get};
ghost use Rattle.mb_tables.specs.Limits.{most_cells, most_moves};
ghost use Rattle.mb_tables.specs.Rows.{AreRows};

use crate::memory::OutOfMemory;
use crate::one_move::Move;
use std::alloc::Global;
use std::marker::Model;

/// The most moves of one list.
pub const MOST_MOVES: u32 = 1_000_064;

const _: () = prove!(MOST_MOVES == 1_000_064);

/// Moves over the same 1 to 64 cells, at most 1,000,064 of them, seen as the width and the list
/// of the moves.
#[derive(Drop)]
pub struct Moves {
    width: u32,
    moves: Vec<Move>,
}

impl Model for Moves {
    ghost use Rattle.mb_tables.specs.Limits.{most_moves};
    ghost use Rattle.mb_tables.specs.Rows.{AreRows, Rows};

    ghost Value = { Rows };

    ghost view = { λ m. record { width = m.width; rows = m.moves.items } };

    ghost invariant = { λ m.
        AreRows 0 most_moves (record { width = m.width; rows = m.moves.items }) };
}

impl Moves {
    /// No moves yet, over so many cells. Memory is taken by `push`, from this allocator.
    pub fn new(alloc: Global, width: u32) -> Moves
        requires positive { 1 ≤ width }
        requires narrow { width ≤ most_cells }
        ensures width { result.width ≡ width }
        ensures empty { result.rows ≡ [] }
    {
        Moves {
            width,
            moves: Vec::new(alloc),
        }
    }

    /// Adds a move at the end. After a refusal the list is as it was, and the move is dropped.
    pub fn push(&mut self, z: Move) -> Result<(), OutOfMemory>
        requires width { length z ≡ self.old.width }
        requires few { length self.old.rows < most_moves }
        ensures added { OnOk result
            (self.new ≡ record self.old { rows = self.old.rows ++ z ∷ [] }) }
        ensures kept { OnErr result (self.new ≡ self.old) }
    {
        self.moves.push(z)?;
        Ok(())
    }

    /// The number of cells of each move, 1 to 64.
    pub fn width(&self) -> u32
        ensures width { result ≡ self.now.width }
        ensures sound { AreRows 0 most_moves self.now }
    {
        self.width
    }

    /// The number of moves, at most 1,000,064.
    pub fn len(&self) -> u32
        ensures moves { result ≡ length self.now.rows }
        ensures sound { AreRows 0 most_moves self.now }
    {
        self.moves.len() as u32
    }

    /// Whether there is no move.
    pub fn is_empty(&self) -> bool
        ensures { result ≡ (length self.now.rows == 0) }
    {
        self.moves.is_empty()
    }

    /// The move of a number, from 0.
    pub fn get(&self, k: u32) -> &Move
        requires { k < length self.now.rows }
        ensures { slice_get self.now.rows k ≡ Some result.now }
    {
        &self.moves[k as usize]
    }

    /// All moves, in order.
    pub fn as_slice(&self) -> &[Move]
        ensures moves { result.now ≡ self.now.rows }
        ensures sound { AreRows 0 most_moves self.now }
    {
        self.moves.as_slice()
    }
}
