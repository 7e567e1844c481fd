//! Datasets as CSV text, as the default writer of `csv` writes it.

ghost use Rattle.std.specs.Prelude.{◌≡◌, ◌∷◌, ◌++◌, ◌<◌, ◌≤◌, [], IfOk, OnOk, length};
ghost use Rattle.csv.specs.Writing.{default_writer, escaped, field_text, needs_byte, needs_quotes, row_text};
ghost use Rattle.mb_data.specs.CrossTable.{combination, combinations, named, sizes};
ghost use Rattle.mb_data.specs.HeaderText.{count_word};
ghost use Rattle.mb_data.specs.Written.{entry_text, record_of, written};
ghost use Rattle.mb_data.specs.loops.Commas.{with_commas};

use crate::dataset::Dataset;
use crate::entry::Entry;
use itoa::Buffer;
use mb_tables::OutOfMemory;
use std::alloc::Global;

/// Whether a byte calls for quotes around its field.
fn is_special(b: u8) -> bool
    ensures { result ≡ needs_byte default_writer b }
{
    b == b',' || b == b'"' || b == b'\r' || b == b'\n'
}

/// Whether a field is written in quotes.
fn is_quoted(field: &[u8]) -> bool
    ensures { result ≡ needs_quotes default_writer field.now }
{
    for b in field {
        if is_special(*b) {
            return true;
        }
    }
    false
}

/// Puts a field at the end of a text, each quote twice.
fn push_escaped(out: &mut Vec<u8>, field: &[u8]) -> Result<(), OutOfMemory>
    ensures { OnOk result (out.new.items ≡ out.old.items ++ escaped default_writer field.now) }
{
    for b in field {
        if *b == b'"' {
            out.push(b'"')?;
        }
        out.push(*b)?;
    }
    Ok(())
}

/// Puts a field at the end of a text, in quotes where it needs them.
fn push_field(out: &mut Vec<u8>, field: &[u8]) -> Result<(), OutOfMemory>
    ensures { OnOk result (out.new.items ≡ out.old.items ++ field_text default_writer field.now) }
{
    if is_quoted(field) {
        out.push(b'"')?;
        push_escaped(out, field)?;
        out.push(b'"')?;
        return Ok(());
    }
    out.extend_from_slice(field)?;
    Ok(())
}

/// Puts the count field of an entry at the end of a text.
fn push_entry(out: &mut Vec<u8>, entry: Entry) -> Result<(), OutOfMemory>
    ensures { OnOk result
        (out.new.items ≡ out.old.items ++ field_text default_writer (entry_text entry)) }
{
    match entry {
        Entry::Count(count) => {
            let mut buffer = Buffer::new();
            push_field(out, buffer.format(count).as_bytes())
        }
        Entry::StructuralZero => push_field(out, b"*"),
    }
}

/// Puts the names of the factors at the end of a text, a comma after each.
fn push_factors(out: &mut Vec<u8>, dataset: &Dataset) -> Result<(), OutOfMemory>
    ensures pushed { OnOk result
        (out.new.items ≡ out.old.items ++ with_commas dataset.now.factors) }
    ensures some { OnOk result (1 ≤ length dataset.now.factors) }
{
    for factor in 0..dataset.factors() {
        push_field(out, dataset.factor(factor).as_bytes())?;
        out.push(b',')?;
    }
    Ok(())
}

/// Puts the names of the levels of a combination at the end of a text, a comma after each.
fn push_levels(out: &mut Vec<u8>, dataset: &Dataset, number: usize) -> Result<(), OutOfMemory>
    requires { number < combinations (sizes dataset.now.levels) }
    ensures pushed { OnOk result (out.new.items ≡ out.old.items
        ++ with_commas (named dataset.now.levels (combination (sizes dataset.now.levels) number))) }
    ensures some { OnOk result
        (1 ≤ length (named dataset.now.levels (combination (sizes dataset.now.levels) number))) }
{
    for factor in 0..dataset.factors() {
        let name = dataset.level(factor, dataset.level_in(number, factor));
        push_field(out, name.as_bytes())?;
        out.push(b',')?;
    }
    Ok(())
}

/// Puts the header at the end of a text.
fn push_header(out: &mut Vec<u8>, dataset: &Dataset) -> Result<(), OutOfMemory>
    ensures { OnOk result (out.new.items ≡ out.old.items
        ++ row_text default_writer (dataset.now.factors ++ count_word ∷ [])) }
{
    push_factors(out, dataset)?;
    push_field(out, b"count")?;
    out.push(b'\n')?;
    Ok(())
}

/// Puts the record of a combination at the end of a text.
fn push_record(out: &mut Vec<u8>, dataset: &Dataset, number: usize) -> Result<(), OutOfMemory>
    requires { number < combinations (sizes dataset.now.levels) }
    ensures { OnOk result (out.new.items ≡ out.old.items
        ++ row_text default_writer (record_of dataset.now number)) }
{
    push_levels(out, dataset, number)?;
    push_entry(out, dataset.entry(number))?;
    out.push(b'\n')?;
    Ok(())
}

/// The written form of a dataset: a header of all factors, `count` its last field, and for each
/// combination of levels, the first factor slowest, its record: the count or `*`.
pub fn write_dataset(alloc: Global, dataset: &Dataset) -> Result<Vec<u8>, OutOfMemory>
    ensures { IfOk result (λ text. text.items ≡ written dataset.now) }
{
    let mut text = Vec::new(alloc);
    push_header(&mut text, dataset)?;
    for number in 0..dataset.combinations() {
        push_record(&mut text, dataset, number)?;
    }
    Ok(text)
}
