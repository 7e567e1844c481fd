//! Combinations of levels by their numbers.

ghost use Rattle.std.specs.List.{slice_index_or};
ghost use Rattle.std.specs.Prelude.{◌≡◌, ◌<◌, ◌+◌, ◌/◌, ◌-◌, ◌^◌, [], Some, drop, length, min, slice_get};
ghost use Rattle.mb_data.specs.CrossTable.{combination, combinations, sizes};

use crate::levels::Levels;

/// How many combinations of levels there are, cut at the greatest u64.
pub(crate) fn combinations_of(levels: &[Levels]) -> u64
    ensures { result ≡ min (combinations (sizes levels.now)) (2 ^ 64 - 1) }
{
    let mut count: u64 = 1;
    for k in 0..levels.len() {
        count = count.saturating_mul(levels[levels.len() - 1 - k].len() as u64);
    }
    count
}

/// What is left of a combination's number for a factor and those before it.
fn left_at(levels: &[Levels], number: u64, factor: usize) -> u64
    requires factor { factor < length levels.now }
    requires number { number < combinations (sizes levels.now) }
    ensures { result ≡ number / combinations (drop (factor + 1) (sizes levels.now)) }
{
    let mut left = number;
    for k in 0..levels.len() - 1 - factor {
        left /= levels[levels.len() - 1 - k].len() as u64;
    }
    left
}

/// The number of a factor's level in a combination.
pub(crate) fn level_of(levels: &[Levels], number: u64, factor: usize) -> usize
    requires factor { factor < length levels.now }
    requires number { number < combinations (sizes levels.now) }
    ensures level { slice_get (combination (sizes levels.now) number) factor ≡ Some result }
    ensures within { result < length (slice_index_or levels.now factor []) }
{
    (left_at(levels, number, factor) % levels[factor].len() as u64) as usize
}
