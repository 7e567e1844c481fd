//! The weight of a table, one factor a cell.

ghost use Rattle.std.specs.Prelude.{◌≡◌, ◌*◌, ◌<◌, ◌≤◌, ◌^◌, IfSome, length};
ghost use Rattle.std.specs.Option.{SomeIff};
ghost use Rattle.mb_matrix.specs.Measure.{AreWeights};
ghost use Rattle.mb_tables.specs.Counts.{AreCounts};
ghost use Rattle.mb_weights.specs.Weight.{weight_of};
ghost use Rattle.mb_weights.specs.loops.Factors.{factor, factors};
ghost use Rattle.mb_weights.specs.loops.SmallWays.{AreSmallWays};

use crate::binomial::{binomial, times};
use crate::pascal::small_ways;
use crate::totals::{add_count, later_total, no_totals};
use mb_matrix::{Matrix, Measure};
use mb_tables::Table;

/// A product of factors, and the factor of one cell more, whose group has a total of `rest` in the
/// later cells; or none where that is 2^128 or more. No factor is 0, so a product that has passed
/// 128 bits stays past them.
fn with_cell(small: &[u64; 1024], product: u128, rest: u64, count: u32, base: u32) -> Option<u128>
    requires small { AreSmallWays small.now }
    requires some { 1 ≤ product }
    requires rest { rest ≤ 2 ^ 38 }
    requires base { 1 ≤ base }
    ensures { SomeIff result (product * factor rest base count < 2 ^ 128)
        (product * factor rest base count) }
{
    if count == 0 {
        return Some(product);
    }
    let chosen = binomial(small, rest, count)?;
    if base == 1 {
        return times(product, chosen);
    }
    let power = u128::from(base).checked_pow(count)?;
    times(product, times(chosen, power)?)
}

/// The product of the factors of all cells, from the last one to the first.
fn product_of_factors(
    small: &[u64; 1024],
    groups: &[u64],
    bases: &[u32],
    counts: &[u32],
) -> Option<u128>
    requires small { AreSmallWays small.now }
    requires measure { AreWeights groups.now bases.now }
    requires cells { length counts.now ≡ length bases.now }
    requires counts { AreCounts counts.now }
    ensures { SomeIff result (factors groups.now bases.now counts.now < 2 ^ 128)
        (factors groups.now bases.now counts.now) }
{
    let mut totals = no_totals();
    let mut product = 1u128;
    for cell in (0..counts.len()).rev() {
        let rest = later_total(&totals, groups, counts, cell);
        product = with_cell(small, product, rest, counts[cell], bases[cell])?;
        add_count(&mut totals, groups, counts, cell);
    }
    Some(product)
}

/// The weight of a table, by coefficients of small numbers that are made once for many tables. The
/// measure and the table have the matrix's cells. None exactly where it is 2^128 or more.
pub fn weight_by(
    small: &[u64; 1024],
    matrix: &Matrix,
    measure: &Measure,
    table: &Table,
) -> Option<u128>
    requires small { AreSmallWays small.now }
    requires measure { length measure.now.bases ≡ length matrix.now.columns }
    requires table { length table.now ≡ length matrix.now.columns }
    ensures exact { SomeIff result (weight_of measure.now table.now < 2 ^ 128)
        (weight_of measure.now table.now) }
    ensures positive { IfSome result (λ w. 1 ≤ w) }
{
    prove_eq!(measure.cells(), matrix.cols());
    product_of_factors(small, measure.groups(), measure.bases(), table.as_slice())
}

/// The weight of a table, where the measure and the table have the matrix's cells: over all groups
/// the multinomial coefficient of the group's counts, times over all cells the base number to the
/// power of the count. None exactly where it is 2^128 or more. It takes no memory.
pub fn weight(matrix: &Matrix, measure: &Measure, table: &Table) -> Option<u128>
    requires measure { length measure.now.bases ≡ length matrix.now.columns }
    requires table { length table.now ≡ length matrix.now.columns }
    ensures exact { SomeIff result (weight_of measure.now table.now < 2 ^ 128)
        (weight_of measure.now table.now) }
    ensures positive { IfSome result (λ w. 1 ≤ w) }
{
    weight_by(&small_ways(), matrix, measure, table)
}
