//! Least paths between two tables by moves that are given, beside the plain model in
//! tests/outside/given_moves_model.

use crate::between_paths::CASES;
use crate::models::moves_of;
use mb_matrix::Matrix;
use mb_paths::{Between, between};
use mb_rings::WalkFault;
use mb_samples::{are_moves, has_small_margins, matrix_of, table_of};
use mb_tables::{Moves, Table};
use std::alloc::Global;
use std::test::Fail;

/// Two tables of equal margins, moves, and the least path from the first to the second.
#[derive(Clone, Copy)]
pub(crate) struct Case {
    /// The text of the design matrix.
    pub(crate) matrix: &'static str,
    /// The moves, one a line.
    pub(crate) moves: &'static str,
    pub(crate) from: &'static str,
    pub(crate) to: &'static str,
    /// How many tables are seen before the answer is known: all up to the distance of the second
    /// table, or all that are reached.
    pub(crate) seen: u32,
    /// `steps` and the signed numbers of the path, or `apart`.
    pub(crate) answer: &'static str,
}

/// What is answered of two tables.
fn between_tables(
    alloc: Global,
    matrix: &Matrix,
    moves: &Moves,
    from: &Table,
    to: &Table,
    limit: u32,
) -> Result<Result<Between, WalkFault>, Fail> {
    let cells = matrix.cols();
    if from.len() != cells || to.len() != cells || moves.width() != cells {
        return Err(Fail::from("another number of cells"));
    }
    if !are_moves(matrix, moves) || !matrix.same_margins(from, to) {
        return Err(Fail::from("other margins"));
    }
    if !has_small_margins(alloc, matrix, from) || limit < 1 || limit > 100_000 {
        return Err(Fail::from("no limit"));
    }
    Ok(between(alloc, matrix, moves, from, to, limit))
}

/// The signed numbers of a path, in words.
fn text_of_steps(alloc: Global, steps: &[i64]) -> Result<String, Fail> {
    let mut text = format!(in alloc; "steps")?;
    for step in steps {
        let more = format!(in alloc; " {step}")?;
        text.push_str(more.as_str())?;
    }
    Ok(text)
}

/// What is answered, in words.
fn text_of(alloc: Global, found: &Result<Between, WalkFault>) -> Result<String, Fail> {
    match found {
        Ok(Between::Joined { steps }) => text_of_steps(alloc, steps.as_slice()),
        Ok(Between::Apart) => Ok(format!(in alloc; "apart")?),
        Err(WalkFault::TooLarge { seen }) => Ok(format!(in alloc; "seen {seen}")?),
        Err(WalkFault::OutOfMemory) => Err(Fail::from("no memory")),
    }
}

/// What is answered to a case within a limit, in words.
fn answer_of(alloc: Global, case: &Case, limit: u32) -> Result<String, Fail> {
    let matrix = matrix_of(alloc, case.matrix)?;
    let moves = moves_of(alloc, matrix.cols(), case.moves, 0)?;
    let from = table_of(alloc, case.from)?;
    let to = table_of(alloc, case.to)?;
    let found = between_tables(alloc, &matrix, &moves, &from, &to, limit)?;
    text_of(alloc, &found)
}

/// Whether a case has its answer where the limit is what is seen, and where it is one more.
fn is_answered(alloc: Global, case: &Case) -> Result<bool, Fail> {
    let at = answer_of(alloc, case, case.seen)?;
    let above = answer_of(alloc, case, case.seen.saturating_add(1))?;
    Ok(at.as_str() == case.answer && above.as_str() == case.answer)
}

/// Whether a case is refused where the limit is one below what is seen.
fn is_refused(alloc: Global, case: &Case) -> Result<bool, Fail> {
    if case.seen < 2 {
        return Ok(true);
    }
    let below = answer_of(alloc, case, case.seen - 1)?;
    let seen = case.seen;
    let wanted = format!(in alloc; "seen {seen}")?;
    Ok(below.as_str() == wanted.as_str())
}

/// The first case that is answered otherwise.
fn first_wrong(alloc: Global, cases: &[Case]) -> Result<Option<usize>, Fail> {
    for (k, case) in cases.iter().enumerate() {
        if !is_answered(alloc, case)? || !is_refused(alloc, case)? {
            return Ok(Some(k));
        }
    }
    Ok(None)
}

// From the plain model.
#[test]
fn random_paths(rt: HostRuntime) -> Result<(), Fail> {
    assert_eq!(rt; first_wrong(rt.alloc(), &CASES)?, None);
    Ok(())
}
