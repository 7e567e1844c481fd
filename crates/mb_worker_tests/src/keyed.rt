//! The walk by keys over shards of the caller's.

ghost use Rattle.mb_claims.specs.Claims.{IsPassOf, IsRootOf};

use crate::models::{DIAGONAL, DIAGONAL_RINGS, have_sizes};
use mb_certificate::Certificate;
use mb_claims::{Claim, Pass, Root, Shards};
use mb_keyed::walk_on;
use mb_matrix::Matrix;
use mb_order::Order;
use mb_outside::NoGate;
use mb_rings::Rings;
use mb_samples::{
    FOUR_BY_FOUR, are_moves, certificate_of, has_small_margins, keys_for, matrix_of, table_of,
};
use mb_tables::Table;
use std::alloc::Global;
use std::test::Fail;
use std::thread::Threads;

/// Whether a pass has seen the keys of all tables of a ring.
fn has_seen_ring(
    alloc: Global,
    shards: &Shards,
    pass: &mut Pass,
    matrix: &Matrix,
    ring: &[Table],
) -> Result<bool, Fail>
    requires ours { IsPassOf shards.now pass.old }
    ensures ours { IsPassOf shards.now pass.new }
{
    for table in ring {
        if table.len() != matrix.cols() {
            return Ok(false);
        }
        let key = keys_for(alloc, matrix, table)?.key(table);
        if shards.claim(pass, key) != Claim::Seen {
            return Ok(false);
        }
    }
    Ok(true)
}

/// Whether the keys of all tables of rings are stored.
fn are_stored(
    alloc: Global,
    shards: &Shards,
    root: &mut Root,
    matrix: &Matrix,
    rings: &Rings,
) -> Result<bool, Fail>
    requires ours { IsRootOf shards.now root.old }
{
    let mut pass = shards.split(root)?;
    for ring in rings.all() {
        if !has_seen_ring(alloc, shards, &mut pass, matrix, ring.as_slice())? {
            return Ok(false);
        }
    }
    Ok(true)
}

/// Whether two workers find the rings of a table over one shard of one word, and the keys of all
/// tables of the rings are stored then.
fn stores_its_tables<R: Threads + Sync>(
    rt: &R,
    alloc: Global,
    certificate: &Certificate,
    start: &Table,
    sizes: &str,
) -> Result<bool, Fail> {
    let (matrix, moves) = (certificate.matrix(), certificate.moves());
    if start.len() != matrix.cols() || moves.width() != matrix.cols() {
        return Err(Fail::from("another number of cells"));
    }
    if !are_moves(matrix, moves) || !has_small_margins(alloc, matrix, start) {
        return Err(Fail::from("other margins"));
    }
    let keys = keys_for(alloc, matrix, start)?;
    let (shards, mut root) = Shards::try_new(alloc, 1, 1)?;
    let Ok((rings, shards)) = walk_on(
        rt, alloc, matrix, moves, start, &keys, shards, &mut root, 2_000_000, 2, &NoGate,
    ) else {
        return Err(Fail::from("no rings"));
    };
    Ok(have_sizes(alloc, &rings, sizes)? && are_stored(alloc, &shards, &mut root, matrix, &rings)?)
}

// Worked: the diagonal of a 4 x 4 table. The shard begins with room for one key, so it is found
// full and grows again and again.
#[test]
fn one_word_grows_to_a_fiber(rt: HostRuntime) -> Result<(), Fail> {
    let (rt, alloc) = (&rt, rt.alloc());
    let matrix = matrix_of(alloc, FOUR_BY_FOUR)?;
    let certificate = certificate_of(alloc, &matrix, Order::Grevlex)?;
    let start = table_of(alloc, DIAGONAL)?;
    assert!(rt; stores_its_tables(rt, alloc, &certificate, &start, DIAGONAL_RINGS)?);
    Ok(())
}
