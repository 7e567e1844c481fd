//! The moves of the margin-free rules, and their paths.

ghost use Rattle.std.specs.Prelude.{◌≡◌, ◌<◌, ◌+◌, ◌-ℤ◌, IfOk, OnOk, drop, length, negsuc, pos};
ghost use Rattle.mb_certificate.specs.Valid as valid;
ghost use Rattle.mb_completion.specs.Made as made;
ghost use Rattle.mb_completion.specs.loops.Making.{free_below};
ghost use Rattle.mb_order.specs.Monomial.{HaveOneShape};
ghost use Rattle.mb_order.specs.Peak.{sides_of};
ghost use Rattle.mb_tables.specs.Entries.{AreEntries, IsEntry};
ghost use Rattle.mb_tables.specs.Vectors.{at};

use mb_certificate::Path;
use mb_order::Monomial;
use mb_rules::Rules;
use mb_tables::{Move, Moves, OutOfMemory};
use std::alloc::Global;

/// Whether neither side of a rule has a symbol of the margins.
fn is_free(rules: &Rules, k: u32) -> bool
    requires { k < length rules.now.rules }
    ensures { result ≡ valid.is_free rules.now.matrix.rows rules.now.rules k }
{
    let rule = rules.get(k);
    rule.left.margin_free() && rule.right.margin_free()
}

/// The difference of the exponents of a cell.
fn difference(left: &Monomial, right: &Monomial, cell: u32) -> i32
    requires shape { HaveOneShape left.now right.now }
    requires cell { left.now.margins + cell < length left.now.list }
    ensures entry { result ≡ (pos (at left.now.list (left.now.margins + cell))
        -ℤ pos (at right.now.list (left.now.margins + cell))) }
    ensures sound { IsEntry result }
{
    i32::from(left.cell(cell)) - i32::from(right.cell(cell))
}

/// The differences of the exponents of all cells.
fn differences(alloc: Global, left: &Monomial, right: &Monomial) -> Result<Vec<i32>, OutOfMemory>
    requires { HaveOneShape left.now right.now }
    ensures entries { IfOk result (λ v. v.items ≡ made.difference
        (drop left.now.margins left.now.list) (drop left.now.margins right.now.list)) }
    ensures cells { IfOk result
        (λ v. length left.now.list ≡ left.now.margins + length v.items) }
    ensures sound { IfOk result (λ v. AreEntries v.items) }
{
    let cells = left.cells();
    let mut entries = Vec::with_capacity(alloc, cells as usize)?;
    for cell in 0..cells {
        entries.push(difference(left, right, cell))?;
    }
    Ok(entries)
}

/// The move of a rule.
fn move_of(alloc: Global, rules: &Rules, k: u32) -> Result<Move, OutOfMemory>
    requires { k < length rules.now.rules }
    ensures made { IfOk result
        (λ z. z ≡ made.move_of rules.now.matrix.rows (sides_of rules.now.rules k)) }
    ensures width { IfOk result (λ z. length z ≡ length rules.now.matrix.columns) }
{
    let rule = rules.get(k);
    let entries = differences(alloc, &rule.left, &rule.right)?;
    Move::from_entries(alloc, entries.as_slice())
}

/// Adds the move of a rule, if it is margin-free.
fn add_move(alloc: Global, rules: &Rules, k: u32, moves: &mut Moves) -> Result<(), OutOfMemory>
    requires rule { k < length rules.now.rules }
    requires width { moves.old.width ≡ length rules.now.matrix.columns }
    requires so_far { moves.old.rows
        ≡ made.moves_among rules.now.matrix.rows rules.now.rules
        (free_below rules.now.matrix.rows rules.now.rules k) }
    ensures so_far { OnOk result (moves.new.rows
        ≡ made.moves_among rules.now.matrix.rows rules.now.rules
        (free_below rules.now.matrix.rows rules.now.rules (k + 1))) }
    ensures width { moves.new.width ≡ moves.old.width }
{
    let _rules = rules.len();
    if !is_free(rules, k) {
        return Ok(());
    }
    moves.push(move_of(alloc, rules, k)?)?;
    Ok(())
}

/// The moves of the margin-free rules, in their order.
pub fn moves_of(alloc: Global, rules: &Rules) -> Result<Moves, OutOfMemory>
    ensures moves { IfOk result
        (λ moves. moves.rows ≡ made.moves_of rules.now.matrix.rows rules.now.rules) }
    ensures width { IfOk result (λ moves. moves.width ≡ length rules.now.matrix.columns) }
{
    let mut moves = Moves::new(alloc, rules.matrix().cols());
    for k in 0..rules.len() {
        add_move(alloc, rules, k, &mut moves)?;
    }
    Ok(moves)
}

/// The step that subtracts the move of a number, which counts from 0.
fn subtracting(number: u32) -> i64
    ensures { result ≡ negsuc number }
{
    -1 - i64::from(number)
}

/// Adds the path of a rule, if it is margin-free: the one step that subtracts its own move, which
/// is the first that no path has.
fn add_path(alloc: Global, rules: &Rules, k: u32, paths: &mut Vec<Path>) -> Result<(), OutOfMemory>
    requires rule { k < length rules.now.rules }
    requires so_far { paths.old.items
        ≡ made.paths_from 0 (free_below rules.now.matrix.rows rules.now.rules k) }
    ensures { OnOk result (paths.new.items
        ≡ made.paths_from 0 (free_below rules.now.matrix.rows rules.now.rules (k + 1))) }
{
    if !is_free(rules, k) {
        return Ok(());
    }
    let steps = Vec::from_array(alloc, [subtracting(paths.len() as u32)])?;
    paths.push(Path { rule: k, steps })?;
    Ok(())
}

/// The paths of the margin-free rules, in their order.
pub fn paths_of(alloc: Global, rules: &Rules) -> Result<Vec<Path>, OutOfMemory>
    ensures { IfOk result
        (λ paths. paths.items ≡ made.paths_of rules.now.matrix.rows rules.now.rules) }
{
    let mut paths = Vec::new(alloc);
    for k in 0..rules.len() {
        add_path(alloc, rules, k, &mut paths)?;
    }
    Ok(paths)
}
