//! The sums of weights over the tables of rings, by several workers: each takes its share of each
//! ring, and the sums over the shares are added up.

ghost use Rattle.std.specs.Prelude.{
  ◌<◌,
  ◌≡◌,
  ◌≤◌,
  All,
  Option,
  length,
  slice_index_or,
  ℕ,
};
ghost use Rattle.mb_weights.specs.PValue.{AreSmall, tables_in};
ghost use Rattle.mb_weights.specs.declared.sums.Sums.{Sums};
ghost use Rattle.mb_weights.specs.loops.Parts.{AreSumsOf, shares_in};
ghost use Rattle.mb_weights.specs.loops.SmallWays.{AreSmallWays};

use crate::sums::Sums;
use crate::table_sums::sums_of;
use mb_matrix::{Matrix, Measure};
use mb_rings::share_of;
use mb_tables::Table;
use std::thread;
use std::thread::Threads;

/// The sums over one share of each ring, among so many.
fn share_sums(
    small: &[u64; 1024],
    matrix: &Matrix,
    measure: &Measure,
    most: u128,
    rings: &[Vec<Table>],
    share: usize,
    count: usize,
) -> Option<Sums>
    requires small { AreSmallWays small.now }
    requires measure { length measure.now.bases ≡ length matrix.now.columns }
    requires tables { All (λ table. length table ≡ length matrix.now.columns)
        (tables_in rings.now) }
    requires rings { AreSmall rings.now }
    requires there { share < count }
    requires few { count ≤ 64 }
    ensures { AreSumsOf measure.now most (shares_in rings.now share count) result }
{
    let mut sums = Sums::new();
    for ring in rings {
        let (_, tables) = share_of(ring.as_slice(), share, count);
        let more = sums_of(small, matrix, measure, most, tables)?;
        sums = sums.plus(more)?;
    }
    Some(sums)
}

/// Lends each part to a thread, which puts there the sums over the share of its number.
fn lend<R: Threads + Sync>(
    rt: &R,
    small: &[u64; 1024],
    matrix: &Matrix,
    measure: &Measure,
    most: u128,
    rings: &[Vec<Table>],
    parts: &mut [Option<Sums>],
)
    requires small { AreSmallWays small.now }
    requires measure { length measure.now.bases ≡ length matrix.now.columns }
    requires tables { All (λ table. length table ≡ length matrix.now.columns)
        (tables_in rings.now) }
    requires rings { AreSmall rings.now }
    requires some { 1 ≤ length parts.old }
    requires few { length parts.old ≤ 64 }
    ensures count { length parts.new ≡ length parts.old }
    ensures parts { (s : ℕ) (d : Option Sums) → s < length parts.old →
        AreSumsOf measure.now most (shares_in rings.now s (length parts.old))
        (slice_index_or parts.new s d) }
{
    let count = parts.len();
    thread::for_each_mut(
        rt,
        parts,
        count,
        &|share, part| {
            *part = share_sums(small, matrix, measure, most, rings, share, count);
        },
    );
}

/// The sums over the tables of all rings, by as many workers as there are parts.
pub fn sums_by<R: Threads + Sync>(
    rt: &R,
    small: &[u64; 1024],
    matrix: &Matrix,
    measure: &Measure,
    most: u128,
    rings: &[Vec<Table>],
    parts: &mut [Option<Sums>],
) -> Option<Sums>
    requires small { AreSmallWays small.now }
    requires measure { length measure.now.bases ≡ length matrix.now.columns }
    requires tables { All (λ table. length table ≡ length matrix.now.columns)
        (tables_in rings.now) }
    requires rings { AreSmall rings.now }
    requires some { 1 ≤ length parts.old }
    requires few { length parts.old ≤ 64 }
    ensures { AreSumsOf measure.now most (tables_in rings.now) result }
{
    lend(rt, small, matrix, measure, most, rings, parts);
    let mut sums = Sums::new();
    for part in parts.iter() {
        let more = (*part)?;
        sums = sums.plus(more)?;
    }
    Some(sums)
}
