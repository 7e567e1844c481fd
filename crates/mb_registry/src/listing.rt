//! The list of all records.
ghost use Rattle.std.specs.Prelude.{◌≡◌, ◌++◌, IfOk, OnOk, map, string_bytes};
ghost use Rattle.mb_registry.specs.Faults.{Looks};
ghost use Rattle.mb_registry.specs.Listing.{list_text, listed_items, listed_of, listed_row, listed_rows, rows_of_kind, rows_of_kinds};
ghost use Rattle.mb_text.specs.Lines.{line};

use crate::fault::RegistryFault;
use crate::kinds::Kind;
use crate::names::{Name, NameFault};
use crate::texts::Text;
use mb_outside::Keeper;
use mb_tables::OutOfMemory;
use mb_text::{push_number, push_text, push_word_line};
use std::alloc::Global;

/// A record as the list has it.
#[derive(Drop)]
pub struct Listed {
    /// Its kind.
    pub kind: Kind,
    /// Its name.
    pub name: Name,
    /// How many bytes its body has.
    pub bytes: u64,
}

/// The row of a listed name, which has to be a name.
fn listed_row<K: Keeper>(
    alloc: Global,
    keeper: &mut K,
    kind: Kind,
    text: &str,
) -> Result<Listed, RegistryFault>
    ensures looks { Looks (λ row. row) (K.rows keeper.old) (K.rows keeper.new)
        (K.faults keeper.old) (K.faults keeper.new)
        result (listed_row kind text.now) }
{
    match Name::try_new(alloc, text) {
        Err(NameFault::OutOfMemory) => return Err(RegistryFault::OutOfMemory),
        Err(NameFault::BadName) => {}
        Ok(name) => {
            if let Some(body) = keeper.get(alloc, kind.number(), text)? {
                return Ok(Listed {
                    kind,
                    name,
                    bytes: body.len() as u64,
                });
            }
        }
    }
    Err(RegistryFault::BadRecord {
        kind,
        name: Text::copy_of(alloc, text)?,
    })
}

/// The rows of these listed names.
fn listed_rows<K: Keeper>(
    alloc: Global,
    keeper: &mut K,
    kind: Kind,
    names: &[String],
) -> Result<Vec<Listed>, RegistryFault>
    ensures looks { Looks (λ rows. rows.items) (K.rows keeper.old) (K.rows keeper.new)
        (K.faults keeper.old) (K.faults keeper.new)
        result (listed_rows kind (map string_bytes names.now)) }
{
    let mut rows = Vec::new(alloc);
    for name in names {
        let row = listed_row(alloc, keeper, kind, name.as_str())?;
        rows.push(row)?;
    }
    Ok(rows)
}

/// The rows of a kind, by name.
fn rows_of_kind<K: Keeper>(
    alloc: Global,
    keeper: &mut K,
    kind: Kind,
) -> Result<Vec<Listed>, RegistryFault>
    ensures looks { Looks (λ rows. rows.items) (K.rows keeper.old) (K.rows keeper.new)
        (K.faults keeper.old) (K.faults keeper.new)
        result (rows_of_kind kind) }
{
    let names = keeper.names(alloc, kind.number())?;
    listed_rows(alloc, keeper, kind, names.as_slice())
}

/// The rows of these kinds, each by name.
fn rows_of_kinds<K: Keeper>(
    alloc: Global,
    keeper: &mut K,
    kinds: &[Kind],
) -> Result<Vec<Listed>, RegistryFault>
    ensures looks { Looks (λ rows. rows.items) (K.rows keeper.old) (K.rows keeper.new)
        (K.faults keeper.old) (K.faults keeper.new)
        result (rows_of_kinds kinds.now) }
{
    let mut all = Vec::new(alloc);
    for kind in kinds {
        let mut rows = rows_of_kind(alloc, keeper, *kind)?;
        all.append(&mut rows)?;
    }
    Ok(all)
}

/// All records, by kind and then by name.
pub(crate) fn list<K: Keeper>(alloc: Global, keeper: &mut K) -> Result<Vec<Listed>, RegistryFault>
    ensures looks { Looks (λ rows. rows.items) (K.rows keeper.old) (K.rows keeper.new)
        (K.faults keeper.old) (K.faults keeper.new)
        result listed_of }
{
    let kinds = [Kind::Dataset, Kind::Model, Kind::Basis, Kind::Analysis];
    rows_of_kinds(alloc, keeper, &kinds)
}

/// Puts the line of a row at the end of a text.
fn push_row(out: &mut Vec<u8>, row: &Listed) -> Result<(), OutOfMemory>
    ensures { OnOk result (out.new.items ≡ out.old.items ++ line (listed_items row.now)) }
{
    push_text(out, row.kind.word().as_bytes())?;
    push_text(out, b" ")?;
    push_text(out, row.name.text().as_bytes())?;
    push_text(out, b" ")?;
    push_number(out, row.bytes)?;
    push_text(out, b"\n")?;
    Ok(())
}

/// The printed list: how many records there are, and for each a line with its kind, its name and
/// how many bytes its body has.
pub fn record_list(alloc: Global, listed: &[Listed]) -> Result<Vec<u8>, OutOfMemory>
    ensures { IfOk result (λ text. text.items ≡ list_text listed.now) }
{
    let mut out = Vec::new(alloc);
    push_word_line(&mut out, b"records", &[listed.len() as u64])?;
    for row in listed {
        push_row(&mut out, row)?;
    }
    Ok(out)
}
