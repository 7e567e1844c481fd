//! Copies of the parts of a certificate that keep their place beside other moves.

ghost use Rattle.std.specs.Prelude.{◌≡◌, IfOk};

use mb_certificate::{Join, Pair, Start};
use mb_tables::{MOST_CELLS, Move, Moves, OutOfMemory};
use std::alloc::Global;

/// Equal moves.
pub fn copy_moves(alloc: Global, moves: &Moves) -> Result<Moves, OutOfMemory>
    ensures { IfOk result (λ copy. copy ≡ moves.now) }
{
    let mut entries = [0; MOST_CELLS as usize];
    let (entries, _rest) = entries.split_at_mut(moves.width() as usize);
    let mut copy = Moves::new(alloc, moves.width());
    for z in moves.as_slice() {
        z.copy_to_slice(entries);
        copy.push(Move::from_entries(alloc, entries)?)?;
    }
    Ok(copy)
}

/// Equal rules.
pub fn copy_rules(alloc: Global, rules: &[Pair]) -> Result<Vec<Pair>, OutOfMemory>
    ensures { IfOk result (λ copy. copy.items ≡ rules.now) }
{
    let mut copy = Vec::with_capacity(alloc, rules.len())?;
    for rule in rules {
        copy.push(Pair {
            left: rule.left.try_copy(alloc)?,
            right: rule.right.try_copy(alloc)?,
        })?;
    }
    Ok(copy)
}

/// Equal starts.
pub fn copy_starts(alloc: Global, starts: &[Start]) -> Result<Vec<Start>, OutOfMemory>
    ensures { IfOk result (λ copy. copy.items ≡ starts.now) }
{
    let mut copy = Vec::with_capacity(alloc, starts.len())?;
    for start in starts {
        copy.push(Start {
            margin_steps: Vec::from_slice(alloc, start.margin_steps.as_slice())?,
            cell_steps: Vec::from_slice(alloc, start.cell_steps.as_slice())?,
        })?;
    }
    Ok(copy)
}

/// Equal joins.
pub fn copy_joins(alloc: Global, joins: &[Join]) -> Result<Vec<Join>, OutOfMemory>
    ensures { IfOk result (λ copy. copy.items ≡ joins.now) }
{
    let mut copy = Vec::with_capacity(alloc, joins.len())?;
    for join in joins {
        copy.push(Join {
            low: join.low,
            high: join.high,
            low_steps: Vec::from_slice(alloc, join.low_steps.as_slice())?,
            high_steps: Vec::from_slice(alloc, join.high_steps.as_slice())?,
        })?;
    }
    Ok(copy)
}
