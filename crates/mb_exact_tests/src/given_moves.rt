//! Moves beside the certificate of a model.

use crate::beside_bases::BASES;
use crate::models::moves_of;
use mb_certificate::{Certificate, write};
use mb_checker::{Verdict, check};
use mb_order::Order;
use mb_paths::{BesideFault, beside};
use mb_samples::{certificate_of, matrix_of};
use mb_tables::{Moves, Table};
use std::alloc::Global;
use std::test::Fail;

/// Independence in a 2 x 2 and in a 2 x 3 table: the sums of rows, then those of columns.
const TWO_BY_TWO: &str = "4 4
1 1 0 0
0 0 1 1
1 0 1 0
0 1 0 1";

const TWO_BY_THREE: &str = "5 6
1 1 1 0 0 0
0 0 0 1 1 1
1 0 0 1 0 0
0 1 0 0 1 0
0 0 1 0 0 1";

/// Hardy-Weinberg proportions of two classes.
const TWO_CLASSES: &str = "2 3
2 1 0
0 1 2";

/// What moves beside a certificate give: the text of the new certificate, or what refuses them.
fn answer_of(
    alloc: Global,
    certificate: &Certificate,
    moves: &Moves,
    limit: u32,
) -> Result<Vec<u8>, Fail> {
    if limit < 1 || limit > 100_000 {
        return Err(Fail::from("no limit"));
    }
    match check(alloc, certificate) {
        Ok(Verdict::Joins) => match beside(alloc, certificate, moves, limit) {
            Ok(new) => text_of(alloc, &new),
            Err(fault) => refusal_of(alloc, &fault),
        },
        _ => Err(Fail::from("no certificate")),
    }
}

/// The text of a certificate, if the checker takes it.
fn text_of(alloc: Global, certificate: &Certificate) -> Result<Vec<u8>, Fail> {
    match (check(alloc, certificate), write(alloc, certificate)) {
        (Ok(Verdict::Joins), Ok(text)) => Ok(text),
        _ => Err(Fail::from("no certificate")),
    }
}

/// The counts of a table.
fn counts_of(alloc: Global, table: &Table) -> Result<String, Fail> {
    let mut text = String::new(alloc);
    for count in table.as_slice() {
        let more = format!(in alloc; " {count}")?;
        text.push_str(more.as_str())?;
    }
    Ok(text)
}

/// A refusal in words.
fn refusal_of(alloc: Global, fault: &BesideFault) -> Result<Vec<u8>, Fail> {
    let text = match fault {
        BesideFault::WidthDiffers => format!(in alloc; "width")?,
        BesideFault::NotAMove { row } => format!(in alloc; "row {row}")?,
        BesideFault::NotBasis { rule, left, right } => {
            let left = counts_of(alloc, left)?;
            let right = counts_of(alloc, right)?;
            format!(in alloc; "rule {rule}{left} >{right}")?
        }
        BesideFault::TooLarge { rule, seen } => format!(in alloc; "rule {rule} seen {seen}")?,
        BesideFault::OutOfMemory => format!(in alloc; "memory")?,
    };
    Ok(Vec::from_slice(alloc, text.as_str().as_bytes())?)
}

/// A model, the cells of moves, these moves, a limit, and the end of the answer to them beside its
/// certificate.
type Case = (&'static str, u32, &'static str, u32, &'static str);

/// Whether the answer ends so.
fn is_answered(alloc: Global, case: &Case) -> Result<bool, Fail> {
    let (model, cells, moves, limit, wanted) = case;
    let matrix = matrix_of(alloc, model)?;
    let certificate = certificate_of(alloc, &matrix, Order::Grevlex)?;
    let moves = moves_of(alloc, *cells, moves, 0)?;
    let answer = answer_of(alloc, &certificate, &moves, *limit)?;
    Ok(answer.as_slice().ends_with(wanted.as_bytes()))
}

/// The first case that is answered otherwise.
fn first_wrong(alloc: Global, cases: &[Case]) -> Result<Option<usize>, Fail> {
    for (k, case) in cases.iter().enumerate() {
        if !is_answered(alloc, case)? {
            return Ok(Some(k));
        }
    }
    Ok(None)
}

// The second and the third were worked examples, the others are by hand.
#[test]
fn given_moves(rt: HostRuntime) -> Result<(), Fail> {
    let cases: [Case; 6] = [
        (TWO_BY_TWO, 4, "1 -1 -1 1", 100, "paths 1\n0 1 1\nend\n"),
        (
            TWO_BY_THREE,
            6,
            "1 -1 0 -1 1 0\n0 1 -1 0 -1 1",
            100,
            "rule 1 0 0 1 1 0 0 > 1 0 0 0 0 1",
        ),
        (
            TWO_BY_THREE,
            6,
            "1 -1 0 -1 1 0\n0 1 -1 0 -1 1\n1 0 -1 -1 0 1",
            100,
            "paths 3\n0 1 2\n1 1 3\n2 1 1\nend\n",
        ),
        (TWO_BY_THREE, 4, "1 -1 -1 1", 100, "width"),
        (TWO_BY_THREE, 6, "1 -1 0 -1 1 0\n1 0 0 0 0 0", 100, "row 2"),
        (TWO_CLASSES, 3, "", 100, "rule 0 0 2 0 > 1 0 1"),
    ];
    assert_eq!(rt; first_wrong(rt.alloc(), &cases)?, None);
    Ok(())
}

/// A Markov basis that is known, of which each move is needed, and what is answered to it beside
/// the certificate of its model.
#[derive(Clone, Copy)]
pub(crate) struct Basis {
    /// The text of the design matrix.
    pub(crate) matrix: &'static str,
    /// The moves, one a line.
    pub(crate) moves: &'static str,
    /// The least limit within which each rule has a path.
    pub(crate) limit: u32,
    /// The paths of the certificate with these moves, as the end of its text.
    pub(crate) paths: &'static str,
    /// The refusal where the limit is one less.
    pub(crate) refusal: &'static str,
    /// The refusals of the moves without one of them, for each, one a line.
    pub(crate) without: &'static str,
}

/// Whether all moves are answered so within a limit.
fn all_answered(
    alloc: Global,
    certificate: &Certificate,
    moves: &Moves,
    limit: u32,
    wanted: &str,
) -> Result<bool, Fail> {
    let answer = answer_of(alloc, certificate, moves, limit)?;
    Ok(answer.as_slice().ends_with(wanted.as_bytes()))
}

/// Whether all moves of a basis are accepted, and refused below the limit.
fn is_accepted(alloc: Global, certificate: &Certificate, basis: &Basis) -> Result<bool, Fail> {
    let cells = certificate.matrix().cols();
    let moves = moves_of(alloc, cells, basis.moves, 0)?;
    let above = basis.limit.saturating_add(1);
    let below = basis.limit.saturating_sub(1);
    Ok(
        all_answered(alloc, certificate, &moves, basis.limit, basis.paths)?
            && all_answered(alloc, certificate, &moves, above, basis.paths)?
            && all_answered(alloc, certificate, &moves, below, basis.refusal)?,
    )
}

/// Whether a basis is refused without each one of its moves.
fn is_minimal(alloc: Global, certificate: &Certificate, basis: &Basis) -> Result<bool, Fail> {
    let cells = certificate.matrix().cols();
    for (place, wanted) in basis.without.split('\n').enumerate() {
        let moves = moves_of(alloc, cells, basis.moves, place.wrapping_add(1))?;
        if !all_answered(alloc, certificate, &moves, 100, wanted)? {
            return Ok(false);
        }
    }
    Ok(true)
}

/// The first basis that is answered otherwise.
fn first_wrong_basis(alloc: Global, bases: &[Basis]) -> Result<Option<usize>, Fail> {
    for (k, basis) in bases.iter().enumerate() {
        let matrix = matrix_of(alloc, basis.matrix)?;
        let certificate = certificate_of(alloc, &matrix, Order::Grevlex)?;
        if !is_accepted(alloc, &certificate, basis)? || !is_minimal(alloc, &certificate, basis)? {
            return Ok(Some(k));
        }
    }
    Ok(None)
}

// The moves are by formula, the answers from the plain model in tests/outside/given_moves_model.
#[test]
fn known_bases(rt: HostRuntime) -> Result<(), Fail> {
    assert_eq!(rt; first_wrong_basis(rt.alloc(), &BASES)?, None);
    Ok(())
}
