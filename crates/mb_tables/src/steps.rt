//! One step over the counts themselves, at the cells where the move isn't 0.

ghost use Rattle.std.specs.Prelude.{◌≡◌, ◌<◌, ◌≤◌, ℕ, All, MatchBool, length, pos, slice_index_or};
ghost use Rattle.std.specs.Bool.{OnFalse, OnTrue};
ghost use Rattle.mb_tables.specs.Counts.{AreCounts};
ghost use Rattle.mb_tables.specs.loops.Cell.{
  CanMoveCount,
  CanMoveParts,
  CantMovePart,
  IsMovedCount,
  moved,
};
ghost use Rattle.mb_tables.specs.loops.Parts.{AreApart, entries_of};

use crate::part::Part;
use crate::sign::Sign;

/// The count with an entry added or subtracted, of any size and sign.
fn moved_to(count: u32, entry: i32, sign: Sign) -> i64
    ensures { result ≡ moved sign count entry }
{
    match sign {
        Sign::Plus => i64::from(count) + i64::from(entry),
        Sign::Minus => i64::from(count) - i64::from(entry),
    }
}

/// Whether the moved count fits 32 bits.
fn can_move_count(count: u32, entry: i32, sign: Sign) -> bool
    ensures { MatchBool result (CanMoveCount sign count entry) (CanMoveCount sign count entry → ⊥) }
{
    let to = moved_to(count, entry, sign);
    0 <= to && to <= 4_294_967_295
}

/// The moved count.
fn moved_count(count: u32, entry: i32, sign: Sign) -> u32
    requires { CanMoveCount sign count entry }
    ensures { IsMovedCount sign count entry result }
{
    moved_to(count, entry, sign) as u32
}

/// Whether each moved count fits 32 bits, at the parts from one place on and before another.
fn can_move_parts(counts: &[u32], parts: &[Part], from: usize, to: usize, sign: Sign) -> bool
    requires cells { All (λ part. part.cell < length counts.now) parts.now }
    requires order { from ≤ to }
    requires room { to ≤ length parts.now }
    ensures each { OnTrue result (CanMoveParts sign counts.now parts.now from to) }
    ensures not_some { OnFalse result (CantMovePart sign counts.now parts.now) }
{
    for part in from..to {
        let part = parts[part];
        if !can_move_count(counts[part.cell as usize], part.entry, sign) {
            return false;
        }
    }
    true
}

/// Whether each moved count fits 32 bits. The first parts, so many of them, have the entries below
/// 0: those parts come first where a count can pass below 0, which is the common refusal.
pub fn can_move(counts: &[u32], parts: &[Part], lows: usize, sign: Sign) -> bool
    requires cells { All (λ part. part.cell < length counts.now) parts.now }
    requires split { lows ≤ length parts.now }
    ensures each { OnTrue result (CanMoveParts sign counts.now parts.now 0 (length parts.now)) }
    ensures not_some { OnFalse result (CantMovePart sign counts.now parts.now) }
{
    let all = parts.len();
    match sign {
        Sign::Plus => {
            can_move_parts(counts, parts, 0, lows, sign)
                && can_move_parts(counts, parts, lows, all, sign)
        }
        Sign::Minus => {
            can_move_parts(counts, parts, lows, all, sign)
                && can_move_parts(counts, parts, 0, lows, sign)
        }
    }
}

/// Moves the counts.
pub fn move_counts(counts: &mut [u32], parts: &[Part], sign: Sign)
    requires cells { All (λ part. part.cell < length counts.old) parts.now }
    requires apart { AreApart parts.now }
    requires fits { AreCounts counts.old }
    requires each { CanMoveParts sign counts.old parts.now 0 (length parts.now) }
    ensures fits { AreCounts counts.new }
    ensures moved { (k : ℕ) → k < length counts.old
        → IsMovedCount sign (slice_index_or counts.old k 0)
        (slice_index_or (entries_of (length counts.old) parts.now) k (pos 0))
        (slice_index_or counts.new k 0) }
{
    for part in parts {
        let count = &mut counts[part.cell as usize];
        *count = moved_count(*count, part.entry, sign);
    }
}
