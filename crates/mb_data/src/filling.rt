//! The entries of all combinations of levels.

ghost use Rattle.std.specs.Option.{unwrap_or};
ghost use Rattle.std.specs.Prelude.{◌≡◌, ◌<◌, ◌≤◌, List, OnOk, length};
ghost use Rattle.mb_data.specs.CrossTable.{combination, combinations, named, sizes};
ghost use Rattle.mb_data.specs.DatasetText.{Row};
ghost use Rattle.mb_data.specs.Rows.{entry_at};
ghost use Rattle.mb_data.specs.declared.entry.Entry.TheVariants.{Count};
ghost use Rattle.mb_data.specs.loops.Fills.{HasFilled};
ghost use Rattle.mb_data.specs.loops.Gathers.{Gathers};
ghost use Rattle.mb_data.specs.loops.Keys.{key_of};

use crate::combining::{combinations_of, level_of};
use crate::entry::Entry;
use crate::fault::DataFault;
use crate::filled::Filled;
use crate::levels::Levels;
use crate::record::push_name;
use crate::rows::Rows;
use mb_tables::OutOfMemory;
use std::alloc::Global;

/// The entry of the levels of a key: what their row says, and a count of 0 where there is none.
fn entry_or_none(rows: &Rows, key: &[u8]) -> Entry
    ensures { result ≡ unwrap_or (entry_at rows.now key.now) (Count 0) }
{
    match rows.get(key) {
        Some(entry) => entry,
        None => Entry::Count(0),
    }
}

/// Makes the key of the levels of a combination.
fn make_key(key: &mut Vec<u8>, levels: &[Levels], number: u64) -> Result<(), OutOfMemory>
    requires { number < combinations (sizes levels.now) }
    ensures { OnOk result (key.new.items
        ≡ key_of (named levels.now (combination (sizes levels.now) number))) }
{
    key.clear();
    for factor in 0..levels.len() {
        let name = levels[factor].name(level_of(levels, number, factor));
        push_name(key, name.as_bytes())?;
    }
    Ok(())
}

/// The entries of all combinations, or TooManyCells at the 65th cell. The number of combinations
/// has to be below the greatest u64: a text has no room for as many structural zeros.
pub(crate) fn fill(
    alloc: Global,
    levels: &[Levels],
    rows: &Rows,
    total: u32,
) -> Result<Filled, DataFault>
    requires rows { (list : List Row) × Gathers (length levels.now) list levels.now
        (entry_at rows.now) total }
    requires small { total ≤ 1000000 }
    ensures { (list : List Row) → Gathers (length levels.now) list levels.now
        (entry_at rows.now) total →
        HasFilled list levels.now result }
{
    let combinations = combinations_of(levels);
    let mut filled = Filled::new(alloc);
    let mut key = Vec::new(alloc);
    for number in 0..combinations {
        make_key(&mut key, levels, number)?;
        if !filled.add(entry_or_none(rows, key.as_slice()))? {
            return Err(DataFault::TooManyCells);
        }
    }
    if combinations == u64::MAX {
        return Err(DataFault::OutOfMemory);
    }
    Ok(filled)
}
