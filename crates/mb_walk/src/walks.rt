//! The walk: by keys where the tables of the fiber have them, and else by the tables themselves.

ghost use Rattle.std.specs.Option.{SomeIff};
ghost use Rattle.std.specs.Prelude.{◌≡◌, ◌<◌, ◌≤◌, ◌^◌, All, IfOk, length};
ghost use Rattle.mb_claims.specs.Limits.{most_shards, most_words};
ghost use Rattle.mb_matrix.specs.Key.{digits_of, key_count};
ghost use Rattle.mb_matrix.specs.Matrix.{IsMove, margins_of};
ghost use Rattle.mb_rings.specs.Walk.{most_tables, walk_cause, walk_of};
ghost use Rattle.mb_rings.specs.Walked.{AreClaims};
ghost use Rattle.mb_tables.specs.Answers.{Gives};

use crate::breadth_first::walk_alone;
use crate::owned_walk::walk_by_tables;
use mb_claims::{MOST_WORDS, Shards, USUAL_SHARDS};
use mb_keyed::{key_total, walk_on, words_for};
use mb_matrix::{Keys, Matrix, Peel};
use mb_outside::Gate;
use mb_rings::{Rings, WalkFault};
use mb_tables::{Moves, OutOfMemory, Table};
use std::alloc::Global;
use std::thread::Threads;

/// The tables for which a walk has words at its beginning, where its limit is larger.
const FORESEEN: u32 = 1_000_000;

/// How many shards a walk begins with, and how many words each has: in all three for every two
/// tables of the limit, or of a million where it is larger.
///
/// There are some shards, and a prime number of them, since one step after another changes a key by
/// little: then neighbouring keys lie apart. Where there are few keys, each is its own place in one
/// shard.
fn first_shards(limit: u32, keys: u64) -> (u32, u32)
    ensures shards { (1 ≤ result.0) × (result.0 ≤ most_shards) }
    ensures words { (1 ≤ result.1) × (result.1 ≤ most_words) }
{
    let total = u64::from(limit.min(FORESEEN)) * 3 / 2;
    let words = words_for(total / u64::from(USUAL_SHARDS));
    if keys < u64::from(MOST_WORDS.min(USUAL_SHARDS * words)) {
        (1, keys as u32 + 1)
    } else {
        (USUAL_SHARDS, words)
    }
}

/// The keys of the tables of the start's fiber, if they have any.
fn keys_of(alloc: Global, matrix: &Matrix, start: &Table) -> Result<Option<Keys>, OutOfMemory>
    requires cells { length start.now ≡ length matrix.now.columns }
    ensures { IfOk result (λ keys. SomeIff keys
        (key_count (digits_of matrix.now (margins_of matrix.now start.now)) < 2 ^ 64)
        (digits_of matrix.now (margins_of matrix.now start.now))) }
{
    let peel = Peel::of(alloc, matrix)?;
    let margins = matrix.margins(alloc, start)?;
    Keys::of(alloc, matrix, &peel, margins.as_slice())
}

/// The walk by keys, over shards of its own.
fn walk_by_keys<R: Threads + Sync, G: Gate + Sync>(
    rt: &R,
    alloc: Global,
    matrix: &Matrix,
    moves: &Moves,
    start: &Table,
    keys: &Keys,
    limit: u32,
    workers: u32,
    gate: &G,
) -> Result<Rings, WalkFault>
    requires cells { length start.now ≡ length matrix.now.columns }
    requires width { moves.now.width ≡ length matrix.now.columns }
    requires moves { All (IsMove matrix.now) moves.now.rows }
    requires margins { All (λ margin. margin < 2 ^ 32) (margins_of matrix.now start.now) }
    requires some { 1 ≤ limit }
    requires small { limit ≤ most_tables }
    requires some_worker { 1 ≤ workers }
    requires few_workers { workers ≤ 64 }
    requires keys { keys.now ≡ digits_of matrix.now (margins_of matrix.now start.now) }
    requires fits { key_count keys.now < 2 ^ 64 }
    ensures rings { Gives walk_cause (λ walked. walked.rings) result
        (walk_of limit matrix.now moves.now.rows start.now) }
    ensures claims { IfOk result (AreClaims keys.now) }
{
    let (shards, words) = first_shards(limit, key_total(keys));
    let (shards, mut root) = Shards::try_new(alloc, shards, words)?;
    match walk_on(
        rt, alloc, matrix, moves, start, keys, shards, &mut root, limit, workers, gate,
    ) {
        Err((_, fault)) => Err(fault),
        Ok((rings, _)) => Ok(rings.with_claims(root)),
    }
}

/// The rings of a start by moves of a matrix: ring 0 is the start alone, and the next ring has
/// what a step leads to from the last one and no ring has yet, in ascending order. They end before
/// the first empty ring.
///
/// The start and the moves have the matrix's cells, each move keeps all margins, and each margin of
/// the start fits 32 bits. The limit is 1 to 2,000,000 tables, and there are 1 to 64 workers.
/// Before a table is expanded the gate is passed, with the number of its share of the ring, from 0,
/// and the number of tables that stand before this one in all rings. The rings are the same for any
/// number of workers.
///
/// Where the tables of the fiber have keys of 64 bits, the workers claim them (`walk_on`), and the
/// rings have the root of these claims. Where they have none, one worker keeps the tables that were
/// met; two or more deal the tables themselves into piles, and as many owners keep those.
///
/// `TooLarge` comes exactly where more tables than the limit are reached.
pub fn walk<R: Threads + Sync, G: Gate + Sync>(
    rt: &R,
    alloc: Global,
    matrix: &Matrix,
    moves: &Moves,
    start: &Table,
    limit: u32,
    workers: u32,
    gate: &G,
) -> Result<Rings, WalkFault>
    requires cells { length start.now ≡ length matrix.now.columns }
    requires width { moves.now.width ≡ length matrix.now.columns }
    requires moves { All (IsMove matrix.now) moves.now.rows }
    requires margins { All (λ margin. margin < 2 ^ 32) (margins_of matrix.now start.now) }
    requires some { 1 ≤ limit }
    requires small { limit ≤ most_tables }
    requires some_worker { 1 ≤ workers }
    requires few_workers { workers ≤ 64 }
    ensures rings { Gives walk_cause (λ walked. walked.rings) result
        (walk_of limit matrix.now moves.now.rows start.now) }
    ensures claims { IfOk result
        (AreClaims (digits_of matrix.now (margins_of matrix.now start.now))) }
{
    match keys_of(alloc, matrix, start)? {
        None if workers == 1 => walk_alone(alloc, matrix, moves, start, limit, gate),
        None => walk_by_tables(rt, alloc, matrix, moves, start, limit, workers, gate),
        Some(keys) => walk_by_keys(rt, alloc, matrix, moves, start, &keys, limit, workers, gate),
    }
}
