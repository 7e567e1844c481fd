//! What a step needs of a table: counts from which it takes something away.

ghost use Rattle.std.specs.Bool.{OnFalse, OnTrue};
ghost use Rattle.std.specs.Prelude.{◌++◌, ◌<◌, ◌≡◌, ◌≤◌, All, OnOk, length};
ghost use Rattle.mb_keyed.specs.loops.Needs.{Has, needs_between, needs_of, takes};

use mb_tables::{Move, OutOfMemory, Sign};

/// A cell, and the least count there. Cells count from 0.
#[derive(Clone, Copy)]
pub struct Need {
    /// The cell.
    pub cell: u32,
    /// The least count.
    pub count: u32,
}

/// Whether a step takes something away at a cell with this entry.
fn takes(entry: i32, sign: Sign) -> bool
    ensures { result ≡ takes sign entry }
{
    match sign {
        Sign::Plus => entry < 0,
        Sign::Minus => 0 < entry,
    }
}

/// Adds what a step needs.
pub fn push_needs(needs: &mut Vec<Need>, z: &Move, sign: Sign) -> Result<(), OutOfMemory>
    ensures { OnOk result (needs.new.items ≡ needs.old.items ++ needs_of sign 0 z.now) }
{
    for cell in 0..z.len() {
        let entry = z.entry(cell);
        if takes(entry, sign) {
            needs.push(Need {
                cell,
                count: entry.unsigned_abs(),
            })?;
        }
    }
    Ok(())
}

/// The needs from one place on and before another.
#[inline(always)]
pub fn needs_between(needs: &[Need], from: usize, to: usize) -> &[Need]
    requires order { from ≤ to }
    requires room { to ≤ length needs.now }
    ensures { result.now ≡ needs_between needs.now from to }
{
    &needs[from..to]
}

/// Whether a table has what a step needs.
#[inline(always)]
pub fn has(counts: &[u32], needs: &[Need]) -> bool
    requires cells { All (λ need. need.cell < length counts.now) needs.now }
    ensures has { OnTrue result (Has counts.now needs.now) }
    ensures lacks { OnFalse result (Has counts.now needs.now → ⊥) }
{
    for need in needs {
        if counts[need.cell as usize] < need.count {
            return false;
        }
    }
    true
}
