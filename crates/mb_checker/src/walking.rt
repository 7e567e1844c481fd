//! Paths: signed numbers of moves, applied in place to a table.

ghost use Rattle.std.specs.Bool.{OnFalse, OnTrue};
ghost use Rattle.std.specs.Int.RustNames.{unsigned_abs};
ghost use Rattle.std.specs.List.{list_all};
ghost use Rattle.std.specs.Prelude.{◌≡◌, ◌&&◌, ◌+◌, IfOk, None, Some, drop, length, nat_le, true};
ghost use Rattle.mb_certificate.specs.FirstFault.{are_same, moved_by, names_move, walk};
ghost use Rattle.mb_certificate.specs.Valid.{AreMoves};
ghost use Rattle.mb_checker.specs.loops.Walked.{HasSmallMargins, sign_of};

use mb_certificate::Certificate;
use mb_order::Monomial;
use mb_tables::{OutOfMemory, Sign, Table};
use std::alloc::Global;

/// The table of the cells' exponents of a monomial.
pub fn table_of(alloc: Global, m: &Monomial) -> Result<Table, OutOfMemory>
    ensures { IfOk result (λ t. t ≡ drop m.now.margins m.now.list) }
{
    let cells = m.cells();
    let mut counts = Vec::with_capacity(alloc, cells as usize)?;
    for cell in 0..cells {
        counts.push(u32::from(m.cell(cell)))?;
    }
    Ok(Table::from_counts(alloc, counts.as_slice())?)
}

/// Whether a table is that of the cells' exponents of a monomial.
pub fn is_table_of(table: &Table, m: &Monomial) -> bool
    requires { m.now.margins + length table.now ≡ length m.now.list }
    ensures { result ≡ are_same table.now (drop m.now.margins m.now.list) }
{
    for cell in 0..m.cells() {
        if table.count(cell) != u32::from(m.cell(cell)) {
            return false;
        }
    }
    true
}

/// Whether a signed number is that of one of so many moves, from 1.
fn is_number(step: i64, moves: u32) -> bool
    ensures { result ≡ (nat_le 1 (unsigned_abs step) && nat_le (unsigned_abs step) moves) }
{
    let number = step.unsigned_abs();
    1 <= number && number <= u64::from(moves)
}

/// Whether all signed numbers are those of moves.
pub fn name_moves(certificate: &Certificate, steps: &[i64]) -> bool
    ensures { result ≡ list_all (names_move certificate.now.moves) steps.now }
{
    let moves = certificate.moves().len();
    for step in steps {
        if !is_number(*step, moves) {
            return false;
        }
    }
    true
}

/// Whether the move of a signed number is added or subtracted.
fn sign_of(step: i64) -> Sign
    ensures { result ≡ sign_of step }
{
    if step < 0 { Sign::Minus } else { Sign::Plus }
}

/// Adds the move of a signed number, or subtracts it where the number is below 0, unless a count
/// would pass below 0.
fn step_by(certificate: &Certificate, step: i64, table: &mut Table) -> bool
    requires named { names_move certificate.now.moves step ≡ true }
    requires moves { AreMoves certificate.now.matrix certificate.now.moves }
    requires cells { length table.old ≡ length certificate.now.matrix.columns }
    requires small { HasSmallMargins certificate.now.matrix table.old }
    ensures moved { OnTrue result
        (moved_by certificate.now.moves step table.old ≡ Some table.new) }
    ensures none { OnFalse result (moved_by certificate.now.moves step table.old ≡ None) }
    ensures cells { length table.new ≡ length certificate.now.matrix.columns }
    ensures small { HasSmallMargins certificate.now.matrix table.new }
{
    let moves = certificate.moves();
    let _count = moves.len();
    let z = moves.get((step.unsigned_abs() - 1) as u32);
    table.apply(z, sign_of(step))
}

/// Applies the moves of signed numbers, one after the other, as long as no count would pass below
/// 0.
pub fn walk(certificate: &Certificate, steps: &[i64], table: &mut Table) -> bool
    requires named { list_all (names_move certificate.now.moves) steps.now ≡ true }
    requires moves { AreMoves certificate.now.matrix certificate.now.moves }
    requires cells { length table.old ≡ length certificate.now.matrix.columns }
    requires small { HasSmallMargins certificate.now.matrix table.old }
    ensures made { OnTrue result
        (walk certificate.now.moves steps.now table.old ≡ Some table.new) }
    ensures none { OnFalse result (walk certificate.now.moves steps.now table.old ≡ None) }
    ensures cells { length table.new ≡ length certificate.now.matrix.columns }
{
    for step in steps {
        if !step_by(certificate, *step, table) {
            return false;
        }
    }
    true
}
