//! The paths that given moves have for the margin-free rules of a certificate.

ghost use Rattle.std.specs.List.{filter, range_with_len};
ghost use Rattle.std.specs.Prelude.{◌≡◌, ◌<◌, ◌≤◌, ◌+◌, All, IfErr, IfOk, OnOk, length, true};
ghost use Rattle.mb_certificate.specs.Certificate.{IsPath};
ghost use Rattle.mb_certificate.specs.Valid.{IsValid, free_rules, is_free};
ghost use Rattle.mb_paths.specs.Between.{most_between};
ghost use Rattle.mb_paths.specs.Beside.{AreLeastPaths, AreMovesOf, IsPathOf};
ghost use Rattle.mb_paths.specs.loops.Pathless.{IsPathless, IsPathlessAt};

use crate::beside_fault::BesideFault;
use crate::between_tables::between;
use crate::connection::Between;
use mb_certificate::{Certificate, Path};
use mb_checker::{is_free, table_of};
use mb_rings::WalkFault;
use mb_tables::Moves;
use std::alloc::Global;

/// The path that moves have for a margin-free rule: the least one from the table of its left side
/// to that of its right side.
fn path_of(
    alloc: Global,
    certificate: &Certificate,
    moves: &Moves,
    rule: u32,
    limit: u32,
) -> Result<Path, BesideFault>
    requires rule { rule < length certificate.now.rules }
    requires free { is_free certificate.now.matrix.rows certificate.now.rules rule ≡ true }
    requires valid { IsValid certificate.now }
    requires moves { AreMovesOf certificate.now.matrix moves.now }
    requires some { 1 ≤ limit }
    requires small { limit ≤ most_between }
    ensures rule { IfOk result (λ path. path.rule ≡ rule) }
    ensures path { IfOk result (λ path.
        IsPathOf limit certificate.now moves.now.rows rule path.steps) }
    ensures sound { IfOk result IsPath }
    ensures none { IfErr result (IsPathless limit certificate.now moves.now.rows rule) }
{
    let pair = &certificate.rules()[rule as usize];
    let left = table_of(alloc, &pair.left)?;
    let right = table_of(alloc, &pair.right)?;
    match between(alloc, certificate.matrix(), moves, &left, &right, limit) {
        Ok(Between::Joined { steps }) => {
            let _moves = moves.len();
            let _steps = steps.len();
            Ok(Path { rule, steps })
        }
        Ok(Between::Apart) => Err(BesideFault::NotBasis { rule, left, right }),
        Err(WalkFault::TooLarge { seen }) => Err(BesideFault::TooLarge { rule, seen }),
        Err(WalkFault::OutOfMemory) => Err(BesideFault::OutOfMemory),
    }
}

/// Adds the path of a rule, if it is margin-free.
fn add_path(
    alloc: Global,
    certificate: &Certificate,
    moves: &Moves,
    rule: u32,
    limit: u32,
    paths: &mut Vec<Path>,
) -> Result<(), BesideFault>
    requires rule { rule < length certificate.now.rules }
    requires valid { IsValid certificate.now }
    requires moves { AreMovesOf certificate.now.matrix moves.now }
    requires some { 1 ≤ limit }
    requires small { limit ≤ most_between }
    requires so_far { AreLeastPaths limit certificate.now moves.now.rows
        (filter (is_free certificate.now.matrix.rows certificate.now.rules)
        (range_with_len 0 rule)) paths.old.items }
    requires sound { All IsPath paths.old.items }
    ensures so_far { OnOk result (AreLeastPaths limit certificate.now moves.now.rows
        (filter (is_free certificate.now.matrix.rows certificate.now.rules)
        (range_with_len 0 (rule + 1))) paths.new.items) }
    ensures sound { OnOk result (All IsPath paths.new.items) }
    ensures none { IfErr result (IsPathlessAt limit certificate.now moves.now.rows) }
{
    if !is_free(certificate, rule) {
        return Ok(());
    }
    paths.push(path_of(alloc, certificate, moves, rule, limit)?)?;
    Ok(())
}

/// The paths that moves have for the margin-free rules, in their order.
pub fn paths_of(
    alloc: Global,
    certificate: &Certificate,
    moves: &Moves,
    limit: u32,
) -> Result<Vec<Path>, BesideFault>
    requires valid { IsValid certificate.now }
    requires moves { AreMovesOf certificate.now.matrix moves.now }
    requires some { 1 ≤ limit }
    requires small { limit ≤ most_between }
    ensures paths { IfOk result (λ paths. AreLeastPaths limit certificate.now moves.now.rows
        (free_rules certificate.now.matrix.rows certificate.now.rules) paths.items) }
    ensures sound { IfOk result (λ paths. All IsPath paths.items) }
    ensures none { IfErr result (IsPathlessAt limit certificate.now moves.now.rows) }
{
    let rules = certificate.rules().len() as u32;
    let mut paths = Vec::new(alloc);
    for rule in 0..rules {
        add_path(alloc, certificate, moves, rule, limit, &mut paths)?;
    }
    Ok(paths)
}
