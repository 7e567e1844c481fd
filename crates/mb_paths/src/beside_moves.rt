//! Given moves beside a certificate.

ghost use Rattle.std.specs.Prelude.{◌≡◌, ◌<◌, ◌≤◌, ◌^◌, All, IfErr, IfNone, IfOk, IfSome, length};
ghost use Rattle.mb_certificate.specs.Certificate.{IsPath};
ghost use Rattle.mb_certificate.specs.Valid.{IsValid};
ghost use Rattle.mb_matrix.specs.MarkovBasis.{IsMarkovBasis};
ghost use Rattle.mb_matrix.specs.Matrix.{IsMove};
ghost use Rattle.mb_paths.specs.Between.{most_between};
ghost use Rattle.mb_paths.specs.Beside.{BesideAnswers, IsFirstOther, ShowsApart, with_moves};

use crate::beside_fault::BesideFault;
use crate::copies::{copy_joins, copy_moves, copy_rules, copy_starts};
use crate::given_paths::paths_of;
use mb_certificate::{Certificate, Path};
use mb_matrix::Matrix;
use mb_tables::{Moves, OutOfMemory};
use std::alloc::Global;

/// The number of the first move, from 1, whose margins aren't all 0.
fn first_other(matrix: &Matrix, moves: &Moves) -> Option<u32>
    requires { moves.now.width ≡ length matrix.now.columns }
    ensures none { IfNone result (All (IsMove matrix.now) moves.now.rows) }
    ensures some { IfSome result (IsFirstOther matrix.now moves.now.rows) }
{
    let _moves = moves.len();
    for (k, z) in moves.as_slice().iter().enumerate() {
        if !matrix.is_move(z) {
            return Some(k as u32 + 1);
        }
    }
    None
}

/// The certificate with these moves and paths in place of its own.
fn with_moves(
    alloc: Global,
    certificate: &Certificate,
    moves: &Moves,
    paths: Vec<Path>,
) -> Result<Certificate, OutOfMemory>
    requires width { moves.now.width ≡ length certificate.now.matrix.columns }
    requires sound { All IsPath paths.items }
    requires few { length paths.items < 2 ^ 32 }
    ensures { IfOk result (λ c. c ≡ with_moves certificate.now moves.now.rows paths.items) }
{
    let _moves = moves.len();
    let matrix = certificate.matrix().try_copy(alloc)?;
    let copy = copy_moves(alloc, moves)?;
    let rules = copy_rules(alloc, certificate.rules())?;
    let starts = copy_starts(alloc, certificate.starts())?;
    let joins = copy_joins(alloc, certificate.joins())?;
    Ok(Certificate::new(
        matrix,
        certificate.order(),
        copy,
        rules,
        starts,
        joins,
        paths,
    ))
}

/// Whether moves are a Markov basis, beside a valid certificate that others are: a valid
/// certificate with the same matrix, order, rules, starts and joins, with these moves, and for each
/// margin-free rule the path that `between` gives from the table of its left side to that of its
/// right side.
///
/// The limit is 1 to 100,000 tables a rule.
///
/// Refused are other widths, then the first move whose margins aren't all 0, then the first
/// margin-free rule that has no path within the limit: `NotBasis` with the tables of its two sides,
/// which have equal margins and which no chain of the moves joins, or `TooLarge`. Want of memory
/// can come in place of any answer.
pub fn beside(
    alloc: Global,
    certificate: &Certificate,
    moves: &Moves,
    limit: u32,
) -> Result<Certificate, BesideFault>
    requires valid { IsValid certificate.now }
    requires some { 1 ≤ limit }
    requires small { limit ≤ most_between }
    ensures answer { BesideAnswers limit certificate.now moves.now result }
    ensures valid { IfOk result IsValid }
    ensures basis { IfOk result (λ c. IsMarkovBasis c.matrix c.moves) }
    ensures apart { IfErr result (ShowsApart certificate.now.matrix moves.now.rows) }
{
    let matrix = certificate.matrix();
    if moves.width() != matrix.cols() {
        return Err(BesideFault::WidthDiffers);
    }
    if let Some(row) = first_other(matrix, moves) {
        return Err(BesideFault::NotAMove { row });
    }
    let paths = paths_of(alloc, certificate, moves, limit)?;
    let beside = with_moves(alloc, certificate, moves, paths)?;
    let _sound = beside.paths();
    Ok(beside)
}
