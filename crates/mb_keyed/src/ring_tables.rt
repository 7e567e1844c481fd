//! The tables of a ring are read back from their keys, by several workers.

ghost use Rattle.std.specs.Prelude.{
  ◌<◌,
  ◌≡◌,
  ◌≢◌,
  ◌≤◌,
  All,
  IfOk,
  List,
  [],
  false,
  length,
  slice_index_or,
  ℕ,
};
ghost use Rattle.mb_keyed.specs.loops.Keyed.{IsOfFiber, digits_in};
ghost use Rattle.mb_keyed.specs.loops.ReadRing.{AreReadAs, IsReadAt};
ghost use Rattle.mb_keyed.specs.loops.Worked.{keys_in};
ghost use Rattle.mb_rings.specs.Claimed.{IsKeyOf};
ghost use Rattle.mb_tables.specs.Lists.{In};

use crate::keyed_fiber::KeyedFiber;
use crate::ranked::Ranked;
use mb_tables::{OutOfMemory, Table};
use std::alloc::Global;
use std::thread;
use std::thread::Threads;

/// Reads the table whose key stands at a place. Where memory is wanting, it stays without cells.
fn read_at(alloc: Global, fiber: &KeyedFiber<'_>, order: &[Ranked], place: usize, table: &mut Table)
    requires place { place < length order.now }
    requires there { (key : ℕ) → In key (keys_in order.now) →
        IsKeyOf (digits_in fiber.now) (IsOfFiber fiber.now) key }
    requires blank { table.old ≡ [] }
    ensures { IsReadAt fiber.now (keys_in order.now) place table.new }
{
    if let Ok(read) = fiber.table(alloc, order[place].key) {
        *table = read;
    }
}

/// Lends each table to one of so many threads, which reads it.
fn read_all<R: Threads + Sync>(
    rt: &R,
    alloc: Global,
    fiber: &KeyedFiber<'_>,
    order: &[Ranked],
    tables: &mut [Table],
    workers: usize,
)
    requires there { (key : ℕ) → In key (keys_in order.now) →
        IsKeyOf (digits_in fiber.now) (IsOfFiber fiber.now) key }
    requires count { length tables.old ≡ length order.now }
    requires blank { All (λ table. table ≡ []) tables.old }
    requires some { 1 ≤ workers }
    ensures count { length tables.new ≡ length order.now }
    ensures read { (k : ℕ) (d : List ℕ) → k < length order.now →
        IsReadAt fiber.now (keys_in order.now) k (slice_index_or tables.new k d) }
{
    thread::for_each_mut(
        rt,
        tables,
        workers,
        &|place, table| read_at(alloc, fiber, order, place, table),
    );
}

/// So many tables without cells.
fn blank_tables(alloc: Global, count: usize) -> Result<Vec<Table>, OutOfMemory>
    ensures count { IfOk result (λ tables. length tables.items ≡ count) }
    ensures blank { IfOk result (λ tables. All (λ table. table ≡ []) tables.items) }
{
    let mut tables = Vec::with_capacity(alloc, count)?;
    for _ in 0..count {
        tables.push(Table::from_counts(alloc, &[])?)?;
    }
    Ok(tables)
}

/// Whether some table has no cells.
fn is_any_blank(tables: &[Table]) -> bool
    ensures { result ≡ false → All (λ table. table ≢ []) tables.now }
{
    for table in tables {
        if table.len() == 0 {
            return true;
        }
    }
    false
}

/// The tables of the fiber with these keys, in the order of the keys, by so many workers. Each is
/// read at its place, so nothing is moved.
pub fn read_tables<R: Threads + Sync>(
    rt: &R,
    alloc: Global,
    fiber: &KeyedFiber<'_>,
    order: &[Ranked],
    workers: usize,
) -> Result<Vec<Table>, OutOfMemory>
    requires there { (key : ℕ) → In key (keys_in order.now) →
        IsKeyOf (digits_in fiber.now) (IsOfFiber fiber.now) key }
    requires some { 1 ≤ workers }
    ensures { IfOk result (λ tables. AreReadAs fiber.now (keys_in order.now) tables.items) }
{
    let mut tables = blank_tables(alloc, order.len())?;
    let list = tables.as_mut_slice();
    read_all(rt, alloc, fiber, order, list, workers);
    if is_any_blank(list) {
        return Err(OutOfMemory);
    }
    Ok(tables)
}
