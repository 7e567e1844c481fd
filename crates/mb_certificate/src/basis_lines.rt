//! The lists of moves and of rules.

ghost use Rattle.std.specs.Prelude.{◌≡◌, ◌≤◌, All, IfOk, codes, length, map};
ghost use Rattle.mb_certificate.specs.CertificateText.{all_of, basis_in, counted, entry, read_cause, rule_in, section, symbol_count};
ghost use Rattle.mb_certificate.specs.Reading.{says, times};
ghost use Rattle.mb_certificate.specs.Sides.{PairSuits, sides};
ghost use Rattle.mb_tables.specs.Answers.{Gives};
ghost use Rattle.mb_tables.specs.Limits.{most_cells, most_moves};

use crate::fault::ReadFault;
use crate::line_parts::{one_move, rule};
use crate::lines::Lines;
use crate::part::read_count;
use crate::parts::Pair;
use mb_matrix::Matrix;
use mb_tables::{MOST_MOVES, Move, Moves};
use std::alloc::Global;

/// The move that the next line is.
#[tactic(auto, unfolding(crate::specs::Reading::says))]
fn read_move(alloc: Global, lines: &mut Lines, cells: u32) -> Result<Move, ReadFault>
    requires { cells ≤ most_cells }
    ensures entries { Gives read_cause (λ z. (z, lines.new)) result
        (says (all_of entry cells) lines.old) }
    ensures whole { IfOk result (λ z. length z ≡ cells) }
{
    let mut items = lines.next()?;
    let z = one_move(alloc, &mut items, cells)?;
    Ok(z)
}

/// The moves that so many lines are.
fn read_moves(alloc: Global, lines: &mut Lines, cells: u32, count: u64) -> Result<Moves, ReadFault>
    requires some { 1 ≤ cells }
    requires narrow { cells ≤ most_cells }
    requires few { count ≤ most_moves }
    ensures moves { Gives read_cause (λ m. (m.rows, lines.new)) result
        (times (says (all_of entry cells)) count lines.old) }
    ensures width { IfOk result (λ m. m.width ≡ cells) }
{
    let mut moves = Moves::new(alloc, cells);
    for _ in 0..count {
        moves.push(read_move(alloc, lines, cells)?)?;
    }
    Ok(moves)
}

/// The rule that the next line is.
#[tactic(auto, unfolding(crate::specs::Reading::says))]
fn read_rule(alloc: Global, lines: &mut Lines, matrix: &Matrix) -> Result<Pair, ReadFault>
    ensures rule { Gives read_cause (λ p. (sides p, lines.new)) result
        (says (rule_in (symbol_count matrix.now)) lines.old) }
    ensures shape { IfOk result (PairSuits matrix.now) }
{
    let mut items = lines.next()?;
    let pair = rule(alloc, &mut items, matrix)?;
    Ok(pair)
}

/// The rules that so many lines are.
fn read_rules(
    alloc: Global,
    lines: &mut Lines,
    matrix: &Matrix,
    count: u64,
) -> Result<Vec<Pair>, ReadFault>
    ensures rules { Gives read_cause (λ v. (map sides v.items, lines.new)) result
        (times (says (rule_in (symbol_count matrix.now))) count lines.old) }
    ensures shape { IfOk result (λ v. All (PairSuits matrix.now) v.items) }
{
    let mut rules = Vec::new(alloc);
    for _ in 0..count {
        rules.push(read_rule(alloc, lines, matrix)?)?;
    }
    Ok(rules)
}

/// The moves and the rules.
#[tactic(auto, unfolding(crate::specs::CertificateText::basis_in))]
pub fn read_basis(
    alloc: Global,
    lines: &mut Lines,
    matrix: &Matrix,
) -> Result<(Moves, Vec<Pair>), ReadFault>
    ensures basis { Gives read_cause (λ b. ((b.0.rows, map sides b.1.items), lines.new)) result
        (basis_in matrix.now lines.old) }
    ensures width { IfOk result (λ b. b.0.width ≡ length matrix.now.columns) }
    ensures shape { IfOk result (λ b. All (PairSuits matrix.now) b.1.items) }
{
    let most = u64::from(MOST_MOVES);
    let count = read_count(lines, b"moves", 0, most)?;
    let moves = read_moves(alloc, lines, matrix.cols(), count)?;
    let count = read_count(lines, b"rules", 0, most)?;
    let rules = read_rules(alloc, lines, matrix, count)?;
    Ok((moves, rules))
}
