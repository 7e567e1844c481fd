//! The text of a certificate.

ghost use Rattle.std.specs.List.{flat_map};
ghost use Rattle.std.specs.Prelude.{◌≡◌, ◌++◌, ◌∷◌, [], IfOk, OnOk, codes, map};
ghost use Rattle.mb_certificate.specs.CertificateText.{order_name};
ghost use Rattle.mb_certificate.specs.Sides.{sides};
ghost use Rattle.mb_certificate.specs.Written.{join_items, matrix_text, move_items, path_items, rule_items, rules_text, section_text, start_items, text_of};
ghost use Rattle.mb_text.specs.Lines.{line};

use crate::certificate::Certificate;
use crate::line_writing::{push_move, push_rule};
use crate::part::Part;
use crate::parts::{Join, Pair, Path, Start};
use mb_matrix::Matrix;
use mb_moves::push_rows;
use mb_order::Order;
use mb_tables::{Move, OutOfMemory};
use mb_text::{push_text, push_word_line};
use std::alloc::Global;

/// Puts the lines of a matrix at the end of a text.
fn push_matrix(out: &mut Vec<u8>, matrix: &Matrix) -> Result<(), OutOfMemory>
    ensures { OnOk result (out.new.items ≡ out.old.items ++ matrix_text matrix.now) }
{
    push_word_line(out, b"matrix", &[matrix.rows(), matrix.cols()])?;
    push_rows(out, matrix)
}

/// Puts the line of an order at the end of a text.
fn push_order(out: &mut Vec<u8>, order: Order) -> Result<(), OutOfMemory>
    ensures { OnOk result
        (out.new.items ≡ out.old.items ++ line (codes "order" ∷ order_name order ∷ [])) }
{
    match order {
        Order::Lex => push_text(out, b"order lex\n"),
        Order::Grevlex => push_text(out, b"order grevlex\n"),
    }
}

/// Puts the lines of moves at the end of a text.
fn push_moves(out: &mut Vec<u8>, moves: &[Move]) -> Result<(), OutOfMemory>
    ensures { OnOk result
        (out.new.items ≡ out.old.items ++ flat_map (λ z. line (move_items z)) moves.now) }
{
    for z in moves {
        push_move(out, z)?;
    }
    Ok(())
}

/// Puts the lines of rules at the end of a text.
fn push_rules(out: &mut Vec<u8>, rules: &[Pair]) -> Result<(), OutOfMemory>
    ensures { OnOk result
        (out.new.items ≡ out.old.items ++ flat_map (λ p. line (rule_items (sides p))) rules.now) }
{
    for pair in rules {
        push_rule(out, pair)?;
    }
    Ok(())
}

/// Puts the lines of starts, joins or paths at the end of a text.
fn push_parts<P: Part>(out: &mut Vec<u8>, parts: &[P]) -> Result<(), OutOfMemory>
    ensures { OnOk result
        (out.new.items ≡ out.old.items ++ flat_map (λ p. line (P.to_items p)) parts.now) }
{
    for part in parts {
        part.write(out)?;
    }
    Ok(())
}

/// Puts a line with a word and the number of the parts, and their lines, at the end of a text.
fn push_section<P: Part>(out: &mut Vec<u8>, word: &[u8], parts: &[P]) -> Result<(), OutOfMemory>
    ensures { OnOk result
        (out.new.items ≡ out.old.items ++ section_text word.now P.to_items parts.now) }
{
    push_word_line(out, word, &[parts.len() as u64])?;
    push_parts(out, parts)
}

/// Puts the moves at the end of a text.
fn push_move_section(out: &mut Vec<u8>, moves: &[Move]) -> Result<(), OutOfMemory>
    ensures { OnOk result
        (out.new.items ≡ out.old.items ++ section_text (codes "moves") move_items moves.now) }
{
    push_word_line(out, b"moves", &[moves.len() as u64])?;
    push_moves(out, moves)
}

/// Puts the rules at the end of a text.
fn push_rule_section(out: &mut Vec<u8>, rules: &[Pair]) -> Result<(), OutOfMemory>
    ensures { OnOk result (out.new.items ≡ out.old.items ++ rules_text (map sides rules.now)) }
{
    push_word_line(out, b"rules", &[rules.len() as u64])?;
    push_rules(out, rules)
}

/// Puts what a certificate begins with at the end of a text.
fn push_head(out: &mut Vec<u8>, matrix: &Matrix, order: Order) -> Result<(), OutOfMemory>
    ensures { OnOk result (out.new.items ≡ out.old.items
        ++ (line (codes "certificate" ∷ codes "1" ∷ [])
        ++ (matrix_text matrix.now ++ line (codes "order" ∷ order_name order ∷ [])))) }
{
    push_text(out, b"certificate 1\n")?;
    push_matrix(out, matrix)?;
    push_order(out, order)
}

/// Puts the starts, the joins and the paths at the end of a text.
fn push_proof(
    out: &mut Vec<u8>,
    starts: &[Start],
    joins: &[Join],
    paths: &[Path],
) -> Result<(), OutOfMemory>
    ensures { OnOk result (out.new.items ≡ out.old.items
        ++ (section_text (codes "starts") start_items starts.now
        ++ (section_text (codes "joins") join_items joins.now
        ++ section_text (codes "paths") path_items paths.now))) }
{
    push_section(out, b"starts", starts)?;
    push_section(out, b"joins", joins)?;
    push_section(out, b"paths", paths)
}

/// The text of a certificate: the one text that `read` reads as it.
pub fn write(alloc: Global, certificate: &Certificate) -> Result<Vec<u8>, OutOfMemory>
    ensures { IfOk result (λ text. text.items ≡ text_of certificate.now) }
{
    let mut out = Vec::new(alloc);
    push_head(&mut out, certificate.matrix(), certificate.order())?;
    push_move_section(&mut out, certificate.moves().as_slice())?;
    push_rule_section(&mut out, certificate.rules())?;
    push_proof(
        &mut out,
        certificate.starts(),
        certificate.joins(),
        certificate.paths(),
    )?;
    push_text(&mut out, b"end\n")?;
    Ok(out)
}

/// The rule table of a certificate: its rules, with their number in front.
pub fn rule_table(alloc: Global, certificate: &Certificate) -> Result<Vec<u8>, OutOfMemory>
    ensures { IfOk result (λ text. text.items ≡ rules_text certificate.now.rules) }
{
    let mut out = Vec::new(alloc);
    push_rule_section(&mut out, certificate.rules())?;
    Ok(out)
}
