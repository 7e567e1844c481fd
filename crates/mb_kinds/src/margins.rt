//! The rows of generators.

ghost use Rattle.std.specs.Cmp.Lexicographic.{pointwise};
ghost use Rattle.std.specs.List.{flat_map};
ghost use Rattle.std.specs.Prelude.{◌≡◌, ◌≤◌, ◌<◌, ◌++◌, All, IfOk, MatchOption, length, map, nat_eq};
ghost use Rattle.mb_data.specs.CrossTable.{cell_numbers, combination, combinations, sizes};
ghost use Rattle.mb_kinds.specs.Generators.{indicator, levels_of, margin_rows, margin_size, sizes_of};
ghost use Rattle.mb_kinds.specs.loops.Placed.{ArePlaced, IsPlaced, end_to_end};

use crate::generator::Generator;
use mb_data::Dataset;
use mb_tables::{MOST_CELLS, OutOfMemory};
use std::alloc::Global;

/// The number of combinations of the levels of these factors, where it is at most 64.
pub(crate) fn margin_size(dataset: &Dataset, factors: &[usize]) -> Option<u32>
    requires { IsPlaced dataset.now factors.now }
    ensures { MatchOption result (64 < margin_size dataset.now factors.now)
        (λ n. (n ≡ margin_size dataset.now factors.now) × (n ≤ 64)) }
{
    let _sound = dataset.factors();
    let mut count: u32 = 1;
    for factor in factors {
        let levels = dataset.levels(*factor);
        if levels > MOST_CELLS as usize {
            return None;
        }
        count *= levels as u32;
        if count > MOST_CELLS {
            return None;
        }
    }
    Some(count)
}

/// Whether a cell has the levels of the combination of this number of these factors' levels.
fn has_levels(dataset: &Dataset, factors: &[usize], size: usize, number: usize, cell: usize) -> bool
    requires placed { IsPlaced dataset.now factors.now }
    requires size { size ≡ margin_size dataset.now factors.now }
    requires number { number < size }
    requires cell { cell < combinations (sizes dataset.now.levels) }
    ensures { result ≡ pointwise nat_eq
        (combination (sizes_of dataset.now.levels factors.now) number)
        (levels_of dataset.now.levels factors.now cell) }
{
    let _sound = dataset.factors();
    let mut size = size;
    let mut left = number;
    for factor in factors {
        size /= dataset.levels(*factor);
        if left / size != dataset.level_in(cell, *factor) {
            return false;
        }
        left %= size;
    }
    true
}

/// The entries so far, and the row of a combination of these factors' levels.
fn push_row(
    mut entries: Vec<i32>,
    dataset: &Dataset,
    cells: &[usize],
    factors: &[usize],
    size: usize,
    number: usize,
) -> Result<Vec<i32>, OutOfMemory>
    requires placed { IsPlaced dataset.now factors.now }
    requires size { size ≡ margin_size dataset.now factors.now }
    requires number { number < size }
    requires cells { All (λ cell. cell < combinations (sizes dataset.now.levels)) cells.now }
    ensures { IfOk result (λ v. v.items ≡ entries.items ++ map (λ cell. indicator (pointwise nat_eq
        (combination (sizes_of dataset.now.levels factors.now) number)
        (levels_of dataset.now.levels factors.now cell))) cells.now) }
{
    for cell in cells {
        if has_levels(dataset, factors, size, number, *cell) {
            entries.push(1)?;
        } else {
            entries.push(0)?;
        }
    }
    Ok(entries)
}

/// The entries so far, and the rows of a generator.
fn push_rows(
    mut entries: Vec<i32>,
    dataset: &Dataset,
    cells: &[usize],
    factors: &[usize],
    size: usize,
) -> Result<Vec<i32>, OutOfMemory>
    requires placed { IsPlaced dataset.now factors.now }
    requires size { size ≡ margin_size dataset.now factors.now }
    requires cells { cells.now ≡ cell_numbers dataset.now.entries }
    ensures { IfOk result (λ v. v.items
        ≡ entries.items ++ end_to_end (margin_rows dataset.now factors.now)) }
{
    let _sound = dataset.factors();
    for number in 0..size {
        entries = push_row(entries, dataset, cells, factors, size, number)?;
    }
    Ok(entries)
}

/// The number of the rows of all generators, and these end to end, where they are at most 64. A
/// generator's rows are counted before they are made.
pub(crate) fn all_rows(
    alloc: Global,
    dataset: &Dataset,
    cells: &[usize],
    generators: &[Generator],
) -> Result<Option<(u32, Vec<i32>)>, OutOfMemory>
    requires placed { ArePlaced dataset.now generators.now }
    requires cells { cells.now ≡ cell_numbers dataset.now.entries }
    ensures { IfOk result (λ o. MatchOption o
        (64 < length (flat_map (margin_rows dataset.now) generators.now))
        (λ p. (p.0 ≡ length (flat_map (margin_rows dataset.now) generators.now)) × (p.0 ≤ 64)
        × (p.1.items ≡ end_to_end (flat_map (margin_rows dataset.now) generators.now)))) }
{
    let mut count: u32 = 0;
    let mut entries = Vec::new(alloc);
    for generator in generators {
        let factors = generator.as_slice();
        let Some(size) = margin_size(dataset, factors) else {
            return Ok(None);
        };
        count += size;
        if count > MOST_CELLS {
            return Ok(None);
        }
        entries = push_rows(entries, dataset, cells, factors, size as usize)?;
    }
    Ok(Some((count, entries)))
}
