//! The graph of a fiber under moves, by keys.

use crate::keyed_fiber::KeyedFiber;
use crate::step_list::{StepList, steps_of};
use mb_matrix::{Keys, Matrix};
use mb_tables::{Moves, OutOfMemory, Table};
use std::alloc::Global;
use std::marker::Model;

/// The graph of a start's fiber under moves: two tables are joined where a move takes one to the
/// other. It has what the keys of a table's neighbours are found with.
///
/// It is seen as the fiber and the moves.
#[derive(Drop)]
pub struct KeyedGraph<'a> {
    fiber: KeyedFiber<'a>,
    moves: &'a Moves,
    steps: StepList,
}

impl<'a> Model for KeyedGraph<'a> {
    ghost use Rattle.mb_keyed.specs.loops.Graph.{Graph};
    ghost use Rattle.mb_keyed.specs.loops.Keyed.{digits_in};
    ghost use Rattle.mb_keyed.specs.loops.Needs.{AreSteps};

    ghost Value = { Graph };

    ghost view = { λ g. record { fiber = g.fiber; moves = g.moves.now } };

    ghost invariant = { λ g.
        AreSteps (digits_in g.fiber) g.moves.now.width g.moves.now.rows g.steps };
}

impl<'a> KeyedGraph<'a> {
    ghost use Rattle.std.specs.Prelude.{◌≡◌, IfOk, length};
    ghost use Rattle.mb_keyed.specs.loops.Keyed.{digits_in, fiber_at};
    ghost use Rattle.mb_keyed.specs.loops.Needs.{AreSteps};
    ghost use Rattle.mb_matrix.specs.Key.{digits_of};
    ghost use Rattle.mb_matrix.specs.Matrix.{IsDesign, margins_of};

    /// The graph of the fiber of a start, with the keys of its margins.
    pub fn of(
        alloc: Global,
        matrix: &'a Matrix,
        moves: &'a Moves,
        start: &Table,
        keys: &'a Keys,
    ) -> Result<KeyedGraph<'a>, OutOfMemory>
        requires cells { length start.now ≡ length matrix.now.columns }
        requires width { moves.now.width ≡ length matrix.now.columns }
        requires keys { keys.now ≡ digits_of matrix.now (margins_of matrix.now start.now) }
        ensures { IfOk result (λ graph.
            graph ≡ record { fiber = fiber_at matrix.now start.now; moves = moves.now }) }
    {
        let _cells = matrix.cols();
        let fiber = KeyedFiber::of(alloc, matrix, start, keys)?;
        let steps = steps_of(alloc, keys, moves)?;
        Ok(KeyedGraph {
            fiber,
            moves,
            steps,
        })
    }

    /// The fiber, whose tables are the graph's.
    pub fn fiber(&self) -> &KeyedFiber<'a>
        ensures { result.now ≡ self.now.fiber }
    {
        &self.fiber
    }

    /// The keys of its tables.
    pub fn keys(&self) -> &Keys
        ensures keys { result.now ≡ digits_in self.now.fiber }
        ensures sound { IsDesign self.now.fiber.matrix }
    {
        self.fiber.keys()
    }

    /// The moves.
    pub fn moves(&self) -> &Moves
        ensures { result.now ≡ self.now.moves }
    {
        self.moves
    }

    /// The steps of the moves, in their order.
    pub fn steps(&self) -> &StepList
        ensures { AreSteps (digits_in self.now.fiber) self.now.moves.width self.now.moves.rows
            result.now }
    {
        &self.steps
    }
}
