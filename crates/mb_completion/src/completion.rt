//! Completion: the run, and then the reduction.

ghost use Rattle.std.specs.Prelude.{◌≡◌, ◌≤◌, IfErr, IfOk, List};
ghost use Rattle.mb_completion.specs.Basis.{IsReducedBasis};
ghost use Rattle.mb_completion.specs.Faults.{Stops};
ghost use Rattle.mb_completion.specs.Limits.{most_looks};
ghost use Rattle.mb_completion.specs.Run.{AreLightPeaks, Finished, RunEnds};
ghost use Rattle.mb_completion.specs.Start.{births_of};
ghost use Rattle.mb_order.specs.Rewriting.{Rule};

use crate::fault::CompleteFault;
use crate::reduction::reduced_rules;
use crate::run::run;
use mb_matrix::Matrix;
use mb_order::Order;
use mb_rules::Rules;
use std::alloc::Global;

/// What a completion gives.
#[derive(Drop)]
pub struct Completed {
    /// The rules of the reduced basis, ascending by left side.
    pub rules: Rules,
    /// How many critical pairs the run looked at.
    pub looks: u32,
}

/// The reduced basis of a design matrix: the rules that take the margins' symbols of each column
/// to its cell's symbol are completed with at most so many looks at critical pairs, 0 to
/// 1,000,000, and then reduced. The basis is a function of matrix and order alone.
///
/// Refused are a run that has a pair left after so many looks (`Unfinished`), and one that comes
/// to a pair whose peak weighs more than 65,535 on some margin (`Exponent`). Want of memory can
/// come in place of any answer.
pub fn complete(
    alloc: Global,
    matrix: &Matrix,
    order: Order,
    pairs: u32,
) -> Result<Completed, CompleteFault>
    requires { pairs ≤ most_looks }
    ensures looks { IfOk result (λ c. (born : List Rule)
        × RunEnds matrix.now order pairs (Finished born c.looks)) }
    ensures basis { IfOk result (λ c. IsReducedBasis matrix.now order c.rules.rules) }
    ensures peaks { IfOk result (λ c. AreLightPeaks matrix.now c.rules.rules) }
    ensures matrix { IfOk result (λ c. c.rules.matrix ≡ matrix.now) }
    ensures order { IfOk result (λ c. c.rules.order ≡ order) }
    ensures stops { IfErr result (Stops matrix.now order pairs (births_of matrix.now) 0) }
{
    let _rows = matrix.rows();
    let (born, looks) = run(alloc, matrix, order, pairs)?;
    let rules = reduced_rules(alloc, &born)?;
    Ok(Completed { rules, looks })
}
