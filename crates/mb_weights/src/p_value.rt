//! The exact p-value of a table as a fraction: the sums of weights of an exact conditional test.

ghost use Rattle.std.specs.Prelude.{◌≡◌, ◌<◌, ◌≤◌, ◌^◌, All, IfNone, IfSome, length};
ghost use Rattle.mb_tables.specs.Lists.{In};
ghost use Rattle.mb_weights.specs.PValue.{AreSmall, below_of, tables_in, whole_of};
ghost use Rattle.mb_weights.specs.Weight.{weight_of};

use crate::pascal::small_ways;
use crate::shared_sums::sums_by;
use crate::table_sums::sums_in;
use crate::weighing::weight_by;
use mb_matrix::{Matrix, Measure};
use mb_tables::Table;
use std::thread::Threads;

/// The weight of an observed table, the summed weight of the listed tables that are no likelier
/// than it, and the summed weight of all listed tables. Where these are a whole fiber, the exact
/// p-value is `below` over `whole`.
#[derive(Clone, Copy, Debug)]
pub struct Weighed {
    pub weight: u128,
    pub below: u128,
    pub whole: u128,
}

/// The weight of an observed table, the summed weight of the listed tables that are no likelier
/// than it, and the summed weight of all. The observed table is one of the listed ones, and the
/// measure and each table have the matrix's cells. None exactly where the sum of all is 2^128 or
/// more. It takes no memory.
pub fn fraction(
    matrix: &Matrix,
    measure: &Measure,
    observed: &Table,
    rings: &[Vec<Table>],
) -> Option<Weighed>
    requires measure { length measure.now.bases ≡ length matrix.now.columns }
    requires tables { All (λ table. length table ≡ length matrix.now.columns)
        (tables_in rings.now) }
    requires listed { In observed.now (tables_in rings.now) }
    ensures weight { IfSome result (λ found. found.weight ≡ weight_of measure.now observed.now) }
    ensures below { IfSome result (λ found.
        found.below ≡ below_of measure.now observed.now (tables_in rings.now)) }
    ensures whole { IfSome result (λ found.
        found.whole ≡ whole_of measure.now (tables_in rings.now)) }
    ensures order { IfSome result (λ found.
        (1 ≤ found.weight) × (found.weight ≤ found.below) × (found.below ≤ found.whole)
        × (found.whole < 2 ^ 128)) }
    ensures none { IfNone result (2 ^ 128 ≤ whole_of measure.now (tables_in rings.now)) }
{
    let small = small_ways();
    let most = weight_by(&small, matrix, measure, observed)?;
    let sums = sums_in(&small, matrix, measure, most, rings)?;
    Some(Weighed {
        weight: most,
        below: sums.below,
        whole: sums.whole,
    })
}

/// The same by 1 to 64 workers, each of which takes its share of each ring: the answer is that of
/// `fraction` for any number of them. A ring has fewer than 2^32 tables. It takes no memory.
pub fn fraction_by<R: Threads + Sync>(
    rt: &R,
    matrix: &Matrix,
    measure: &Measure,
    observed: &Table,
    rings: &[Vec<Table>],
    workers: u32,
) -> Option<Weighed>
    requires measure { length measure.now.bases ≡ length matrix.now.columns }
    requires tables { All (λ table. length table ≡ length matrix.now.columns)
        (tables_in rings.now) }
    requires listed { In observed.now (tables_in rings.now) }
    requires rings { AreSmall rings.now }
    requires some_worker { 1 ≤ workers }
    requires few_workers { workers ≤ 64 }
    ensures weight { IfSome result (λ found. found.weight ≡ weight_of measure.now observed.now) }
    ensures below { IfSome result (λ found.
        found.below ≡ below_of measure.now observed.now (tables_in rings.now)) }
    ensures whole { IfSome result (λ found.
        found.whole ≡ whole_of measure.now (tables_in rings.now)) }
    ensures order { IfSome result (λ found.
        (1 ≤ found.weight) × (found.weight ≤ found.below) × (found.below ≤ found.whole)
        × (found.whole < 2 ^ 128)) }
    ensures none { IfNone result (2 ^ 128 ≤ whole_of measure.now (tables_in rings.now)) }
{
    let small = small_ways();
    let most = weight_by(&small, matrix, measure, observed)?;
    let mut parts = [None; 64];
    let parts = &mut parts[..workers as usize];
    let sums = sums_by(rt, &small, matrix, measure, most, rings, parts)?;
    Some(Weighed {
        weight: most,
        below: sums.below,
        whole: sums.whole,
    })
}
