//! The certificate that is made of rules which complete a matrix.

ghost use Rattle.std.specs.Prelude.{◌≡◌, ◌<◌, All, IfOk, Some, length, map, slice_get};
ghost use Rattle.mb_certificate.specs.Certificate.{AreSides};
ghost use Rattle.mb_certificate.specs.Sides.{PairSuits, sides};
ghost use Rattle.mb_certificate.specs.Valid.{IsValid};
ghost use Rattle.mb_completion.specs.Basis.{IsReducedBasis};
ghost use Rattle.mb_completion.specs.Made.{
  AreNormalJoins,
  AreNormalStarts,
  moves_of as moves_among_all,
  paths_of as paths_among_all,
};
ghost use Rattle.mb_completion.specs.Run.{AreLightPeaks};

use crate::completion::Completed;
use crate::joins::joins_of;
use crate::moves::{moves_of, paths_of};
use crate::starts::starts_of;
use mb_certificate::{Certificate, Pair};
use mb_matrix::Matrix;
use mb_rules::Rules;
use mb_tables::OutOfMemory;
use std::alloc::Global;

/// The rule of a number, as a certificate has it.
fn pair(alloc: Global, rules: &Rules, k: u32) -> Result<Pair, OutOfMemory>
    requires { k < length rules.now.rules }
    ensures rule { IfOk result (λ pair. slice_get rules.now.rules k ≡ Some (sides pair)) }
    ensures shape { IfOk result (PairSuits rules.now.matrix) }
    ensures sound { IfOk result (λ pair. AreSides rules.now.matrix (sides pair)) }
{
    let rule = rules.get(k);
    let _left = rule.left.cells();
    let _right = rule.right.cells();
    Ok(Pair {
        left: rule.left.try_copy(alloc)?,
        right: rule.right.try_copy(alloc)?,
    })
}

/// All rules, as a certificate has them.
fn pairs_of(alloc: Global, rules: &Rules) -> Result<Vec<Pair>, OutOfMemory>
    ensures rules { IfOk result (λ pairs. map sides pairs.items ≡ rules.now.rules) }
    ensures shape { IfOk result (λ pairs. All (PairSuits rules.now.matrix) pairs.items) }
    ensures sound { IfOk result (λ pairs. All (AreSides rules.now.matrix) rules.now.rules) }
{
    let mut pairs = Vec::with_capacity(alloc, rules.len() as usize)?;
    for k in 0..rules.len() {
        pairs.push(pair(alloc, rules, k)?)?;
    }
    Ok(pairs)
}

/// The certificate of completed rules: their matrix, order and rules; as moves the differences of
/// the two sides of the margin-free rules, in their order; at each start and join the traces of
/// normal forms; and for each margin-free rule the path that subtracts its own move.
///
/// The rules have to be of this matrix, with no peak that weighs more than 65,535 on some margin,
/// as those of `complete` are.
pub fn make(
    alloc: Global,
    matrix: &Matrix,
    completed: &Completed,
) -> Result<Certificate, OutOfMemory>
    requires matrix { completed.now.rules.matrix ≡ matrix.now }
    requires peaks { AreLightPeaks matrix.now completed.now.rules.rules }
    ensures matrix { IfOk result (λ c. c.matrix ≡ matrix.now) }
    ensures order { IfOk result (λ c. c.order ≡ completed.now.rules.order) }
    ensures rules { IfOk result (λ c. c.rules ≡ completed.now.rules.rules) }
    ensures moves { IfOk result
        (λ c. c.moves ≡ moves_among_all matrix.now.rows completed.now.rules.rules) }
    ensures starts { IfOk result
        (λ c. AreNormalStarts matrix.now completed.now.rules.rules c.starts) }
    ensures joins { IfOk result (λ c. AreNormalJoins completed.now.rules.rules c.joins) }
    ensures paths { IfOk result
        (λ c. c.paths ≡ paths_among_all matrix.now.rows completed.now.rules.rules) }
    ensures valid { IfOk result (λ c.
        IsReducedBasis matrix.now completed.now.rules.order completed.now.rules.rules → IsValid c) }
{
    let rules = &completed.rules;
    let _rules = rules.len();
    let moves = moves_of(alloc, rules)?;
    let _moves = moves.len();
    let pairs = pairs_of(alloc, rules)?;
    let starts = starts_of(alloc, rules)?;
    let joins = joins_of(alloc, rules)?;
    let paths = paths_of(alloc, rules)?;
    let copy = matrix.try_copy(alloc)?;
    Ok(Certificate::new(copy, rules.order(), moves, pairs, starts, joins, paths))
}
