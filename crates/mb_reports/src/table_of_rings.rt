//! The text that prints rings of tables.

ghost use Rattle.std.specs.Prelude.{◌≡◌, ◌++◌, ◌^◌, ◌<◌, IfOk, OnOk, map};
ghost use Rattle.mb_reports.specs.RingTable.{ring_lines, ring_table_of, tables_in};

use mb_tables::{OutOfMemory, Table};
use mb_text::{push_line, push_word_line};
use std::alloc::Global;

/// Puts the lines of ring k at the end of a text.
fn append_ring(out: &mut Vec<u8>, k: u64, ring: &[Table]) -> Result<(), OutOfMemory>
    ensures { OnOk result (out.new.items ≡ out.old.items ++ ring_lines k ring.now) }
{
    push_word_line(out, b"ring", &[k, ring.len() as u64])?;
    for table in ring {
        push_line(out, table.as_slice())?;
    }
    Ok(())
}

/// How many tables stand in the rings.
fn count_tables(rings: &[Vec<Table>]) -> u64
    requires { tables_in (map (λ ring. ring.items) rings.now) < 2 ^ 32 }
    ensures { result ≡ tables_in (map (λ ring. ring.items) rings.now) }
{
    let mut tables = 0u64;
    for ring in rings {
        tables += ring.len() as u64;
    }
    tables
}

/// The text that prints rings: a line with the number of tables, and for each ring a line with
/// its number and its size and then a line for each of its tables.
///
/// Rings count from 0. A table's counts are parted by single spaces. Each line ends with LF.
pub fn ring_table(alloc: Global, rings: &[Vec<Table>]) -> Result<Vec<u8>, OutOfMemory>
    requires { tables_in (map (λ ring. ring.items) rings.now) < 2 ^ 32 }
    ensures { IfOk result (λ text.
        text.items ≡ ring_table_of (map (λ ring. ring.items) rings.now)) }
{
    let mut out = Vec::new(alloc);
    push_word_line(&mut out, b"tables", &[count_tables(rings)])?;
    for (k, ring) in rings.iter().enumerate() {
        append_ring(&mut out, k as u64, ring.as_slice())?;
    }
    Ok(out)
}
