//! The steps of some moves, as a walk by keys tries them.
//!
//! Only whether a step leads to a table is asked: the table has what the step needs. Then the key
//! of what it makes is the key before and what the move adds to it, so that no table is moved.
//! Ranks go the same way; they decide only where a key is cached.

ghost use Rattle.std.specs.Prelude.{◌<◌, ◌≡◌, All, IfOk};
ghost use Rattle.mb_keyed.specs.loops.Needs.{AreSteps};

use crate::needs::{Need, push_needs};
use mb_matrix::Keys;
use mb_tables::{Moves, OutOfMemory, Sign};
use std::alloc::Global;

/// What a move adds to a key and to a rank, and where its needs stand in a list: those of its being
/// added, and then those of its being subtracted.
#[derive(Clone, Copy)]
pub struct StepOf {
    /// What the move adds to a key.
    pub delta: u64,
    /// What the move adds to a rank.
    pub rank_delta: u64,
    /// The first need of its being added.
    pub first: usize,
    /// The first need of its being subtracted.
    pub middle: usize,
    /// The first need behind these.
    pub end: usize,
}

/// The steps of some moves, in the order of the moves, and what they need.
#[derive(Drop)]
pub struct StepList {
    /// One for each move.
    pub list: Vec<StepOf>,
    /// What they need, one after another.
    pub needs: Vec<Need>,
}

/// The steps of some moves.
pub fn steps_of(alloc: Global, keys: &Keys, moves: &Moves) -> Result<StepList, OutOfMemory>
    requires cells { All (λ d. d.cell < moves.now.width) keys.now }
    ensures { IfOk result (AreSteps keys.now moves.now.width moves.now.rows) }
{
    let mut list = Vec::with_capacity(alloc, moves.len() as usize)?;
    let mut needs = Vec::new(alloc);
    for z in moves.as_slice() {
        let first = needs.len();
        push_needs(&mut needs, z, Sign::Plus)?;
        let middle = needs.len();
        push_needs(&mut needs, z, Sign::Minus)?;
        list.push(StepOf {
            delta: keys.delta(z),
            rank_delta: keys.rank_delta(z),
            first,
            middle,
            end: needs.len(),
        })?;
    }
    Ok(StepList { list, needs })
}
