//! The count field of a record.

ghost use Rattle.std.specs.Prelude.{◌≡◌, ◌+◌, ◌<◌, ◌^◌, ◌==◌, if◌then◌else◌};
ghost use Rattle.std.specs.Option.{option_map};
ghost use Rattle.mb_data.specs.CountField.{after_spaces, before_spaces, entry_of};
ghost use Rattle.mb_data.specs.loops.CappedEntries.{capped_entry};

use crate::entry::Entry;
use mb_text::capped_natural;

/// The field without the spaces at its start.
fn skip_spaces(field: &[u8]) -> &[u8]
    ensures { result.now ≡ after_spaces field.now }
{
    for (place, b) in field.iter().enumerate() {
        if *b != b' ' {
            return field.split_at(place).1;
        }
    }
    &[]
}

/// How many bytes stay up to this place: those up to the last that is no space.
fn kept_after(kept: usize, place: usize, b: u8) -> usize
    requires { place < 2 ^ 63 }
    ensures { result ≡ (if b == 32 then kept else place + 1) }
{
    if b == b' ' { kept } else { place + 1 }
}

/// The field without the spaces at its end.
fn drop_spaces(field: &[u8]) -> &[u8]
    ensures { result.now ≡ before_spaces field.now }
{
    let mut kept = 0;
    for (place, b) in field.iter().enumerate() {
        kept = kept_after(kept, place, *b);
    }
    field.split_at(kept).0
}

/// The entry that a count field says, where a count above 1,000,000 is 1,000,001.
pub(crate) fn read_entry(field: &[u8]) -> Option<Entry>
    ensures { result ≡ option_map capped_entry (entry_of field.now) }
{
    let core = drop_spaces(skip_spaces(field));
    if core == b"*".as_slice() {
        return Some(Entry::StructuralZero);
    }
    match capped_natural(core) {
        None => None,
        Some(count) => Some(Entry::Count(count.min(1_000_001) as u32)),
    }
}
