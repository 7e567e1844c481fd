//! A dataset: a contingency table with named factors and levels.

ghost use Rattle.std.specs.List.{slice_index_or};
ghost use Rattle.std.specs.Prelude.{◌≡◌, ◌<◌, [], IfOk, Some, length, map, slice_get, sum};
ghost use Rattle.mb_data.specs.CrossTable.{cell_numbers, combination, combinations, counts, sizes};
ghost use Rattle.mb_data.specs.Dataset.{IsCrossTable, IsDataset};
ghost use Rattle.std.specs.String.{string_bytes};

use crate::cells::{cell_counts, numbers_of_cells};
use crate::combining::level_of;
use crate::entry::Entry;
use crate::filled::Filled;
use crate::levels::Levels;
use mb_tables::{OutOfMemory, Table};
use std::alloc::Global;
use std::marker::Model;

/// A dataset, seen as its factors by name, the levels of each by name in the order of their first
/// appearance, and an entry for each combination of levels, the first factor slowest.
///
/// The combinations that are no structural zeros are the cells, 1 to 64 of them, and their counts
/// add up to at most 1,000,000.
#[derive(Drop)]
pub struct Dataset {
    factors: Vec<String>,
    levels: Vec<Levels>,
    entries: Vec<Entry>,
    cells: u32,
    total: u32,
}

impl Model for Dataset {
    ghost use Rattle.std.specs.Prelude.{map};
    ghost use Rattle.std.specs.String.{string_bytes};
    ghost use Rattle.mb_data.specs.CrossTable.{CrossTable};
    ghost use Rattle.mb_data.specs.Dataset.{IsDataset};

    ghost Value = { CrossTable };

    ghost view = { λ d. record {
      factors = map string_bytes d.factors.items;
      levels =
          d.levels.items;
      entries = d.entries.items;
    } };

    ghost invariant = { λ d. IsDataset (record {
      factors = map string_bytes d.factors.items;
      levels =
          d.levels.items;
      entries = d.entries.items;
    }) d.cells d.total };
}

impl Dataset {
    /// The dataset of these parts.
    pub(crate) fn of(factors: Vec<String>, levels: Vec<Levels>, filled: Filled) -> Dataset
        requires { IsDataset (record {
          factors = map string_bytes factors.items;
          levels =
              levels.items;
          entries = filled.entries.items;
        }) filled.cells filled.total }
        ensures { result ≡ record {
          factors = map string_bytes factors.items;
          levels = levels.items;
          entries = filled.entries.items;
        } }
    {
        Dataset {
            factors,
            levels,
            entries: filled.entries,
            cells: filled.cells,
            total: filled.total,
        }
    }

    /// How many factors there are, at least 1.
    pub fn factors(&self) -> usize
        ensures factors { result ≡ length self.now.factors }
        ensures sound { IsCrossTable self.now }
    {
        self.factors.len()
    }

    /// The name of a factor. Factors count from 0.
    pub fn factor(&self, factor: usize) -> &str
        requires { factor < length self.now.factors }
        ensures { slice_get self.now.factors factor ≡ Some result.now }
    {
        self.factors[factor].as_str()
    }

    /// How many levels a factor has.
    pub fn levels(&self, factor: usize) -> usize
        requires { factor < length self.now.factors }
        ensures { result ≡ length (slice_index_or self.now.levels factor []) }
    {
        self.levels[factor].len()
    }

    /// The name of a level of a factor. Both count from 0.
    pub fn level(&self, factor: usize, level: usize) -> &str
        requires factor { factor < length self.now.factors }
        requires level { level < length (slice_index_or self.now.levels factor []) }
        ensures { slice_get (slice_index_or self.now.levels factor []) level ≡ Some result.now }
    {
        self.levels[factor].name(level)
    }

    /// How many combinations of levels there are.
    pub fn combinations(&self) -> usize
        ensures { result ≡ combinations (sizes self.now.levels) }
    {
        self.entries.len()
    }

    /// What a combination has. Combinations count from 0, the first factor slowest.
    pub fn entry(&self, combination: usize) -> Entry
        requires { combination < combinations (sizes self.now.levels) }
        ensures { slice_get self.now.entries combination ≡ Some result }
    {
        self.entries[combination]
    }

    /// The number of a factor's level in a combination. All three count from 0.
    pub fn level_in(&self, number: usize, factor: usize) -> usize
        requires number { number < combinations (sizes self.now.levels) }
        requires factor { factor < length self.now.factors }
        ensures level { slice_get (combination (sizes self.now.levels) number)
            factor ≡ Some result }
        ensures within { result < length (slice_index_or self.now.levels factor []) }
    {
        level_of(self.levels.as_slice(), number as u64, factor)
    }

    /// The numbers of the combinations that are cells, in their order.
    pub fn cell_combinations(&self, alloc: Global) -> Result<Vec<usize>, OutOfMemory>
        ensures { IfOk result (λ numbers. numbers.items ≡ cell_numbers self.now.entries) }
    {
        numbers_of_cells(alloc, self.entries.as_slice())
    }

    /// The counts of the cells as a table, in the order of the combinations.
    pub fn table(&self, alloc: Global) -> Result<Table, OutOfMemory>
        ensures { IfOk result (λ table. table ≡ counts self.now.entries) }
    {
        let list = cell_counts(alloc, self.entries.as_slice())?;
        Table::from_counts(alloc, list.as_slice())
    }

    /// The number of cells, 1 to 64.
    pub fn cells(&self) -> u32
        ensures cells { result ≡ length (counts self.now.entries) }
        ensures sound { IsCrossTable self.now }
    {
        self.cells
    }

    /// The sum of the counts, at most 1,000,000.
    pub fn total(&self) -> u32
        ensures total { result ≡ sum (counts self.now.entries) }
        ensures sound { IsCrossTable self.now }
    {
        self.total
    }
}
