//! What a record of a dataset's text says: an entry, a key, and names of levels.

ghost use Rattle.std.specs.List.{list_all, remove};
ghost use Rattle.std.specs.Prelude.{◌≡◌, ◌∷◌, ◌+◌, ◌++◌, ◌<◌, [], ◌^◌, ◌&&◌, ◌==◌, ◌≤◌, IfOk, None, OnOk, Some, if◌then◌else◌, length, nat_le, nat_lt, true};
ghost use Rattle.std.specs.Str.{is_utf8};
ghost use Rattle.mb_data.specs.CrossTable.{counted};
ghost use Rattle.mb_data.specs.DatasetText.{row_of, with_levels};
ghost use Rattle.mb_data.specs.Levels.{with_name};
ghost use Rattle.mb_data.specs.loops.CappedEntries.{HasRow};
ghost use Rattle.mb_data.specs.loops.Keys.{key_of};

use crate::count_field::read_entry;
use crate::entry::Entry;
use crate::fault::DataFault;
use crate::fields::{is_text, text_field};
use crate::header::Header;
use crate::levels::Levels;
use crate::records::Records;
use mb_tables::OutOfMemory;
use std::alloc::Global;

/// Whether the record read last has a field for each factor and one more, all of them text.
fn is_text_record(records: &Records<'_>, factors: usize) -> bool
    ensures { result ≡ (list_all is_utf8 records.now.fields
        && (length records.now.fields == factors + 1)) }
{
    for k in 0..records.len() {
        if !is_text(records.field(k)) {
            return false;
        }
    }
    records.len() > factors && records.len() - 1 == factors
}

/// The place of a factor's field, where the count column has the given place.
fn field_of_factor(factor: usize, place: usize) -> usize
    requires { factor + 1 < 2 ^ 64 }
    ensures { result ≡ (if nat_lt factor place then factor else factor + 1) }
{
    if factor < place { factor } else { factor + 1 }
}

/// Adds the level of a name, where it is new. The name has to be text.
fn add_level(alloc: Global, names: &mut Levels, field: &[u8]) -> Result<(), OutOfMemory>
    requires text { is_utf8 field.now ≡ true }
    ensures { OnOk result (names.new ≡ with_name names.old field.now) }
{
    match text_field(field) {
        Some(name) => names.add_new(alloc, name),
        None => unreachable!(),
    }
}

/// Adds the levels of the record read last, each where it is new.
pub(crate) fn add_levels(
    alloc: Global,
    levels: &mut [Levels],
    records: &Records<'_>,
    place: usize,
) -> Result<(), OutOfMemory>
    requires text { list_all is_utf8 records.now.fields ≡ true }
    requires width { length records.now.fields ≡ length levels.old + 1 }
    requires place { place < length records.now.fields }
    ensures { OnOk result
        (levels.new ≡ with_levels levels.old (remove records.now.fields place)) }
{
    for (factor, names) in levels.iter_mut().enumerate() {
        add_level(alloc, names, records.field(field_of_factor(factor, place)))?;
    }
    Ok(())
}

/// Adds a name to a key.
pub(crate) fn push_name(key: &mut Vec<u8>, name: &[u8]) -> Result<(), OutOfMemory>
    ensures { OnOk result (key.new.items ≡ key.old.items ++ (name.now ++ 255 ∷ [])) }
{
    key.extend_from_slice(name)?;
    key.push(255)?;
    Ok(())
}

/// The key of the levels of the record read last.
pub(crate) fn record_key(
    alloc: Global,
    records: &Records<'_>,
    place: usize,
) -> Result<Vec<u8>, OutOfMemory>
    requires place { place < length records.now.fields }
    ensures { IfOk result (λ key. key.items ≡ key_of (remove records.now.fields place)) }
{
    let mut key = Vec::with_capacity(alloc, records.bytes().saturating_add(records.len()))?;
    for factor in 0..records.len() - 1 {
        push_name(&mut key, records.field(field_of_factor(factor, place)))?;
    }
    Ok(key)
}

/// The entry of the record read last, whose number is given; a count above 1,000,000 is 1,000,001.
pub(crate) fn record_entry(
    header: &Header,
    records: &Records<'_>,
    number: u64,
) -> Result<Entry, DataFault>
    ensures row { HasRow result (row_of header.now number records.now.fields)
        (remove records.now.fields header.now.place) }
    ensures text { OnOk result (list_all is_utf8 records.now.fields ≡ true) }
    ensures width { OnOk result
        (length records.now.fields ≡ length header.now.factors + 1) }
{
    if !is_text_record(records, header.factors()) {
        return Err(DataFault::Csv { row: number });
    }
    match read_entry(records.field(header.place())) {
        Some(entry) => Ok(entry),
        None => Err(DataFault::BadCount { row: number }),
    }
}

/// The total with a further entry, where it is at most 1,000,000.
pub(crate) fn total_with(total: u32, entry: Entry) -> Option<u32>
    requires { total ≤ 1000000 }
    ensures { result ≡ (if nat_le (total + counted entry) 1000000
        then Some (total + counted entry) else None) }
{
    let sum = match entry {
        Entry::Count(count) => u64::from(total) + u64::from(count),
        Entry::StructuralZero => u64::from(total),
    };
    if sum <= 1_000_000 {
        Some(sum as u32)
    } else {
        None
    }
}
