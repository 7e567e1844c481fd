//! The lines of a certificate, written.

ghost use Rattle.std.specs.Fmt.{decimal};
ghost use Rattle.std.specs.List.{flat_map, join_with_byte};
ghost use Rattle.std.specs.Prelude.{◌≡◌, ◌++◌, ◌∷◌, [], OnOk, codes, length, map};
ghost use Rattle.mb_certificate.specs.Sides.{sides};
ghost use Rattle.mb_certificate.specs.Written.{join_items, move_items, path_items, rule_items, start_items};
ghost use Rattle.mb_text.specs.Lines.{line};

use crate::parts::{Join, Pair, Path, Start};
use mb_tables::{MOST_CELLS, Move, OutOfMemory};
use mb_text::{push_line, push_number, push_numbers, push_spaced, push_text};

/// Puts the line of a move at the end of a text.
pub fn push_move(out: &mut Vec<u8>, z: &Move) -> Result<(), OutOfMemory>
    ensures { OnOk result (out.new.items ≡ out.old.items ++ line (move_items z.now)) }
{
    let mut entries = [0i32; MOST_CELLS as usize];
    let entries = &mut entries[..z.len() as usize];
    z.copy_to_slice(entries);
    push_line(out, entries)
}

/// Puts the line of a rule at the end of a text.
pub fn push_rule(out: &mut Vec<u8>, pair: &Pair) -> Result<(), OutOfMemory>
    ensures { OnOk result
        (out.new.items ≡ out.old.items ++ line (rule_items (sides pair.now))) }
{
    push_numbers(out, pair.left.as_slice())?;
    push_text(out, b" >")?;
    push_spaced(out, pair.right.as_slice())?;
    out.push(b'\n')?;
    Ok(())
}

/// Puts the line of a start at the end of a text.
pub fn push_start(out: &mut Vec<u8>, start: &Start) -> Result<(), OutOfMemory>
    ensures { OnOk result (out.new.items ≡ out.old.items ++ line (start_items start.now)) }
{
    let first = start.margin_steps.as_slice();
    let second = start.cell_steps.as_slice();
    push_number(out, first.len() as u64)?;
    push_spaced(out, &[second.len() as u64])?;
    push_spaced(out, first)?;
    push_spaced(out, second)?;
    out.push(b'\n')?;
    Ok(())
}

/// Puts the line of a join at the end of a text.
pub fn push_join(out: &mut Vec<u8>, join: &Join) -> Result<(), OutOfMemory>
    ensures { OnOk result (out.new.items ≡ out.old.items ++ line (join_items join.now)) }
{
    let first = join.low_steps.as_slice();
    let second = join.high_steps.as_slice();
    push_numbers(out, &[join.low, join.high])?;
    push_spaced(out, &[first.len() as u64, second.len() as u64])?;
    push_spaced(out, first)?;
    push_spaced(out, second)?;
    out.push(b'\n')?;
    Ok(())
}

/// Puts the line of a path at the end of a text.
pub fn push_path(out: &mut Vec<u8>, path: &Path) -> Result<(), OutOfMemory>
    ensures { OnOk result (out.new.items ≡ out.old.items ++ line (path_items path.now)) }
{
    let steps = path.steps.as_slice();
    push_number(out, path.rule)?;
    push_spaced(out, &[steps.len() as u64])?;
    push_spaced(out, steps)?;
    out.push(b'\n')?;
    Ok(())
}
