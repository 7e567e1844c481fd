//! The totals of groups, while cell after cell is taken, from the last one to the first.

ghost use Rattle.std.specs.Prelude.{◌≡◌, ◌==◌, cond, ◌+◌, ◌<◌, ◌≤◌, ◌^◌, List, length, ℕ};
ghost use Rattle.mb_tables.specs.Counts.{AreCounts};
ghost use Rattle.mb_tables.specs.Limits.{most_cells};
ghost use Rattle.mb_tables.specs.Vectors.{at};
ghost use Rattle.mb_weights.specs.loops.Factors.{AreTotals, total_from};

/// How many groups have their totals kept: 0 to 63. A scale of at most 64 rows has no others.
const KEPT_GROUPS: u64 = 64;

/// The totals before any cell is taken.
pub fn no_totals() -> [u64; 64]
    ensures { (cells : ℕ) (groups u : List ℕ) → length groups ≤ cells →
        AreTotals result cells groups u }
{
    [0; 64]
}

/// The count of a cell where it is of the group, or 0.
fn count_in(of: u64, group: u64, count: u32) -> u64
    ensures counted { result ≡ cond (of == group) count 0 }
    ensures small { result < 2 ^ 32 }
{
    if of == group { u64::from(count) } else { 0 }
}

/// The total of a group over the cells from one on, for the groups whose totals aren't kept.
fn summed_total(groups: &[u64], counts: &[u32], from: usize, group: u64) -> u64
    requires cells { length counts.now ≡ length groups.now }
    requires few { length groups.now ≤ most_cells }
    requires from { from ≤ length groups.now }
    ensures { result ≡ total_from from group groups.now counts.now }
{
    let mut sum = 0;
    for cell in from..groups.len() {
        sum += count_in(groups[cell], group, counts[cell]);
    }
    sum
}

/// The total of a cell's group over the later cells.
pub fn later_total(totals: &[u64; 64], groups: &[u64], counts: &[u32], cell: usize) -> u64
    requires cells { length counts.now ≡ length groups.now }
    requires few { length groups.now ≤ most_cells }
    requires cell { cell < length groups.now }
    requires counts { AreCounts counts.now }
    requires totals { AreTotals totals.now (cell + 1) groups.now counts.now }
    ensures total { result ≡ total_from (cell + 1) (at groups.now cell) groups.now counts.now }
    ensures small { result ≤ 2 ^ 38 }
{
    let group = groups[cell];
    if group < KEPT_GROUPS {
        totals[group as usize]
    } else {
        summed_total(groups, counts, cell + 1, group)
    }
}

/// Takes one cell more: adds its count to the total of its group.
pub fn add_count(totals: &mut [u64; 64], groups: &[u64], counts: &[u32], cell: usize)
    requires cells { length counts.now ≡ length groups.now }
    requires few { length groups.now ≤ most_cells }
    requires cell { cell < length groups.now }
    requires counts { AreCounts counts.now }
    requires totals { AreTotals totals.old (cell + 1) groups.now counts.now }
    ensures { AreTotals totals.new cell groups.now counts.now }
{
    let group = groups[cell];
    if group < KEPT_GROUPS {
        totals[group as usize] += u64::from(counts[cell]);
    }
}
