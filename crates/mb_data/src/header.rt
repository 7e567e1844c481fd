//! The header of a dataset's text.

ghost use Rattle.std.specs.List.{position};
ghost use Rattle.std.specs.Prelude.{◌≡◌, ◌<◌, ◌≤◌, [], IfOk, IfSome, length, map};
ghost use Rattle.std.specs.Str.{bytes_eq};
ghost use Rattle.std.specs.String.{string_bytes};
ghost use Rattle.mb_data.specs.Faults.{cause};
ghost use Rattle.mb_data.specs.HeaderText.{columns_at, count_word, has_repeat, header_fields, header_of};
ghost use Rattle.mb_tables.specs.Answers.{Gives};

use crate::fault::DataFault;
use crate::fields::header_field;
use crate::levels::Levels;
use crate::records::Records;
use mb_tables::OutOfMemory;
use std::alloc::Global;
use std::marker::Model;

/// The columns of a text, seen as the names of the factors and the place of the count column.
#[derive(Drop)]
pub(crate) struct Header {
    factors: Vec<String>,
    place: usize,
}

impl Model for Header {
    ghost use Rattle.std.specs.Prelude.{◌≤◌, length, map};
    ghost use Rattle.std.specs.String.{string_bytes};
    ghost use Rattle.mb_data.specs.HeaderText.{Columns};

    ghost Value = { Columns };

    ghost view = { λ h. record { factors = map string_bytes h.factors.items; place = h.place } };

    ghost invariant = { λ h. h.place ≤ length h.factors.items };
}

/// The fields of a header as texts.
fn field_names(alloc: Global, records: &Records<'_>) -> Result<Vec<String>, DataFault>
    ensures { Gives cause (λ names. map string_bytes names.items) result
        (header_fields records.now.fields) }
{
    let mut names = Vec::new(alloc);
    for k in 0..records.len() {
        let Some(name) = header_field(records.field(k)) else {
            return Err(DataFault::Csv { row: 1 });
        };
        names.push(String::from_str(alloc, name)?)?;
    }
    Ok(names)
}

/// Whether two of the names are equal.
fn repeats(alloc: Global, names: &[String]) -> Result<bool, OutOfMemory>
    ensures { IfOk result (λ b. b ≡ has_repeat [] (map string_bytes names.now)) }
{
    let mut earlier = Levels::new(alloc);
    for name in names {
        if !earlier.is_new(name.as_str()) {
            return Ok(true);
        }
        earlier.add_new(alloc, name.as_str())?;
    }
    Ok(false)
}

/// The place of the column of counts.
fn count_place(names: &[String]) -> Option<usize>
    ensures place { result
        ≡ position (λ name. bytes_eq (string_bytes name) count_word) names.now }
    ensures within { IfSome result (λ place. place < length names.now) }
{
    names.iter().position(|name| name.as_str() == "count")
}

/// The columns of fields that all differ.
fn columns(names: Vec<String>) -> Result<Header, DataFault>
    ensures { result ≡ columns_at (map string_bytes names.items)
        (position (λ name. bytes_eq name count_word) (map string_bytes names.items)) }
{
    let Some(place) = count_place(names.as_slice()) else {
        return Err(DataFault::NoCountColumn);
    };
    if names.len() == 1 {
        return Err(DataFault::NoFactor);
    }
    let mut factors = names;
    factors.remove(place);
    Ok(Header { factors, place })
}

/// The columns that a header says.
pub(crate) fn read_header(alloc: Global, records: &Records<'_>) -> Result<Header, DataFault>
    ensures { Gives cause (λ header. header) result (header_of records.now.fields) }
{
    let names = field_names(alloc, records)?;
    if repeats(alloc, names.as_slice())? {
        return Err(DataFault::Repeated { row: 1 });
    }
    columns(names)
}

impl Header {
    /// How many factors there are.
    pub(crate) fn factors(&self) -> usize
        ensures { result ≡ length self.now.factors }
    {
        self.factors.len()
    }

    /// The place of the count column among the fields of a record.
    pub(crate) fn place(&self) -> usize
        ensures place { result ≡ self.now.place }
        ensures within { result ≤ length self.now.factors }
    {
        self.place
    }

    /// The names of the factors.
    pub(crate) fn into_factors(self) -> Vec<String>
        ensures { map string_bytes result.items ≡ self.factors }
    {
        self.factors
    }
}
