//! The entries of a text, one after the other.

ghost use Rattle.std.specs.Prelude.{◌≡◌, ◌*◌, ◌+◌, ◌<◌, ◌≤◌, ◌∷◌, [], All, IfOk, length};
ghost use Rattle.mb_tables.specs.Answers.{Gives};
ghost use Rattle.mb_tables.specs.Entries.{IsEntry};
ghost use Rattle.mb_tables.specs.Limits.{most_cells, most_moves};
ghost use Rattle.mb_text.specs.Tokens.{tokens};
ghost use Rattle.mb_moves.specs.GridText.{cause, entries_after};
ghost use Rattle.mb_moves.specs.loops.Reads.{GoesOn};
ghost use Rattle.mb_moves.specs.loops.RowTests.{entries_checked};

use crate::fault::GridFault;
use crate::numbers;
use mb_text::next_token;

/// The next entry, and the text after it. So many entries were found before it.
fn read_entry(text: &[u8], found: u32, wanted: u32) -> Result<(i32, &[u8]), GridFault>
    requires more { found < wanted }
    requires few { wanted ≤ most_moves * most_cells }
    ensures read { GoesOn (λ x. x.0 ∷ []) (λ x. x.1.now) wanted found text.now result }
    ensures sound { IfOk result (λ x. IsEntry x.0) }
{
    match next_token(text) {
        None => Err(GridFault::TooFew { found, wanted }),
        Some((token, rest)) => {
            let entry = numbers::entry_of(token, found + 3)?;
            Ok((entry, rest))
        }
    }
}

/// The next `count` entries, put into the empty vector, and the text after them. The vector is
/// dropped on a refusal.
pub fn read_entries(
    mut entries: Vec<i32>,
    text: &[u8],
    found: u32,
    count: u32,
    wanted: u32,
) -> Result<(Vec<i32>, &[u8]), GridFault>
    requires empty { entries.items ≡ [] }
    requires more { found + count ≤ wanted }
    requires few { wanted ≤ most_moves * most_cells }
    ensures read { GoesOn (λ x. x.0.items) (λ x. x.1.now) wanted found text.now result }
    ensures count { IfOk result (λ x. length x.0.items ≡ count) }
    ensures sound { IfOk result (λ x. All IsEntry x.0.items) }
{
    let mut rest = text;
    for k in 0..count {
        let (entry, after) = read_entry(rest, found + k, wanted)?;
        entries.push(entry)?;
        rest = after;
    }
    Ok((entries, rest))
}

/// Whether the text ends here, after all entries.
pub fn read_end(text: &[u8], wanted: u32) -> Result<(), GridFault>
    ensures { Gives cause (λ _. []) result (entries_after wanted wanted (tokens text.now)) }
{
    match next_token(text) {
        None => Ok(()),
        Some(_) => Err(GridFault::TooMany { wanted }),
    }
}

/// Whether the text has so many entries and ends. The entries are not kept.
pub fn check_entries(text: &[u8], wanted: u32) -> Result<(), GridFault>
    requires few { wanted ≤ most_moves * most_cells }
    ensures { Gives cause (λ _. tt) result (entries_checked wanted (tokens text.now)) }
{
    let mut rest = text;
    for k in 0..wanted {
        let (_, after) = read_entry(rest, k, wanted)?;
        rest = after;
    }
    read_end(rest, wanted)
}
