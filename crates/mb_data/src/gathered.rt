//! The rows of a dataset's text, gathered record by record.

ghost use Rattle.std.specs.Prelude.{◌≤◌};

use crate::fault::DataFault;
use crate::filled::Filled;
use crate::filling::fill;
use crate::header::Header;
use crate::levels::Levels;
use crate::record::{add_levels, record_entry, record_key, total_with};
use crate::records::Records;
use crate::rows::Rows;
use mb_tables::OutOfMemory;
use std::alloc::Global;

/// The levels, entries and total of the records so far.
#[derive(Drop)]
pub(crate) struct Gathered {
    levels: Vec<Levels>,
    rows: Rows,
    total: u32,
    ghost small: { total ≤ 1000000 },
}

impl Gathered {
    ghost use Rattle.std.specs.Prelude.{◌≡◌, [], IfOk, List, OnOk, length};
    ghost use Rattle.std.specs.Vec.{vec_len};
    ghost use Rattle.mb_data.specs.DatasetText.{Row, next_rows};
    ghost use Rattle.mb_data.specs.loops.Fills.{HasFilled};
    ghost use Rattle.mb_data.specs.loops.Gathers.{HasAdded, HasGathered};

    /// No record yet, under so many factors.
    pub(crate) fn new(alloc: Global, factors: usize) -> Result<Gathered, OutOfMemory>
        ensures { IfOk result (HasGathered factors []) }
    {
        let mut levels = Vec::new(alloc);
        for _ in 0..factors {
            levels.push(Levels::new(alloc))?;
        }
        Ok(Gathered {
            levels,
            rows: Rows::new(alloc),
            total: 0,
        })
    }

    /// Adds the record read last, whose number is given, or answers its fault.
    pub(crate) fn add(
        &mut self,
        alloc: Global,
        header: &Header,
        records: &Records<'_>,
        number: u64,
    ) -> Result<(), DataFault>
        requires { vec_len self.old.levels ≡ length header.now.factors }
        ensures width { OnOk result (vec_len self.new.levels ≡ length header.now.factors) }
        ensures added { (rows : List Row) → HasGathered (length header.now.factors) rows self.old →
            HasAdded (length header.now.factors) result
            (next_rows header.now number rows records.now.fields) self.new }
    {
        let entry = record_entry(header, records, number)?;
        let key = record_key(alloc, records, header.place())?;
        if !self.rows.put(key, entry)? {
            return Err(DataFault::Repeated { row: number });
        }
        match total_with(self.total, entry) {
            Some(total) => self.total = total,
            None => return Err(DataFault::TotalTooLarge),
        }
        add_levels(alloc, self.levels.as_mut_slice(), records, header.place())?;
        Ok(())
    }

    /// The entries of all combinations of the levels, or TooManyCells.
    pub(crate) fn fill(&self, alloc: Global) -> Result<Filled, DataFault>
        requires { (rows : List Row) × HasGathered (vec_len self.now.levels) rows self.now }
        ensures { (rows : List Row) → HasGathered (vec_len self.now.levels) rows self.now →
            HasFilled rows self.now.levels.items result }
    {
        fill(alloc, self.levels.as_slice(), &self.rows, self.total)
    }

    /// The levels of the factors.
    pub(crate) fn into_levels(self) -> Vec<Levels>
        ensures { result ≡ self.levels }
    {
        self.levels
    }
}
