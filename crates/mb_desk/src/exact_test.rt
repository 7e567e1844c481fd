//! The exact test of a table given its margins, by the moves of a certificate.

ghost use Rattle.std.specs.Prelude.{◌≡◌, ◌<◌, ◌≤◌, ◌^◌, All, IfOk, OnOk, length, map};
ghost use Rattle.mb_certificate.specs.FirstFault.{first_fault};
ghost use Rattle.mb_certificate.specs.Valid.{IsValid};
ghost use Rattle.mb_desk.specs.ExactTest.{
  AreFigures,
  accepted,
  narrow,
  numbers_cause,
  numbers_in,
  numbers_of,
  small_enough,
  weighed_fraction,
};
ghost use Rattle.mb_matrix.specs.Key.{digits_of};
ghost use Rattle.mb_matrix.specs.Matrix.{fiber_of, margins_of};
ghost use Rattle.mb_matrix.specs.Measure.{IsMeasureOf};
ghost use Rattle.mb_rings.specs.Ring.{rings_of};
ghost use Rattle.mb_rings.specs.Walk.{most_tables};
ghost use Rattle.mb_rings.specs.Walked.{AreClaims};
ghost use Rattle.mb_tables.specs.Answers.{Gives};
ghost use Rattle.mb_weights.specs.PValue.{exact_p_value};
ghost use Rattle.mb_weights.specs.Weight.{weight_of};

use mb_certificate::{Certificate, Reason};
use mb_checker::{Verdict, check};
use mb_claims::Root;
use mb_matrix::Measure;
use mb_outside::Gate;
use mb_rings::{Rings, WalkFault};
use mb_tables::Table;
use mb_walk::walk;
use mb_weights::{Weighed, fraction_by};
use std::alloc::{AllocError, AllocFailed, Global};
use std::thread::Threads;

/// The numbers of an exact test. The p-value is `below` over `whole`, which isn't reduced.
#[derive(Drop)]
pub struct Figures {
    /// How many tables stand in each ring: how many there are at each distance from the observed
    /// table, by the moves, in its fiber.
    pub rings: Vec<u32>,
    /// The weight of the observed table.
    pub weight: u128,
    /// The summed weight of the tables of the fiber that are no likelier than the observed one.
    pub below: u128,
    /// The summed weight of all tables of the fiber.
    pub whole: u128,
    /// The root of the claims by which the tables were found, which is closed, where they have
    /// keys.
    pub claims: Option<Root>,
}

/// Why there are no numbers. Where several causes hold, the first of these is answered.
#[derive(Clone, Copy, Debug, PartialEq, Eq)]
pub enum NumbersFault {
    /// The first wrong line of the certificate's text, from 1, and what is wrong with it.
    Certificate { line: u64, reason: Reason },
    /// The fiber has more tables than the limit; so many were seen, the limit and one more.
    TooLarge { seen: u32 },
    /// The weights of the fiber's tables add up to 2^128 or more.
    TooWide,
    /// Out of memory.
    OutOfMemory,
}

impl From<AllocError> for NumbersFault {
    ghost use Rattle.mb_desk.specs.declared.exact_test.NumbersFault.TheVariants.{OutOfMemory};

    ghost from_gives = { λ _ e. e ≡ OutOfMemory };

    fn from(_e: AllocError) -> NumbersFault {
        NumbersFault::OutOfMemory
    }
}

impl<T: Drop> From<AllocFailed<T>> for NumbersFault {
    ghost use Rattle.mb_desk.specs.declared.exact_test.NumbersFault.TheVariants.{OutOfMemory};

    ghost from_gives = { λ _ e. e ≡ OutOfMemory };

    fn from(_e: AllocFailed<T>) -> NumbersFault {
        NumbersFault::OutOfMemory
    }
}

/// Judges each line of a certificate.
fn accept(alloc: Global, certificate: &Certificate) -> Result<(), NumbersFault>
    ensures right { Gives numbers_cause (λ x. x) result (accepted (first_fault certificate.now)) }
    ensures valid { OnOk result (IsValid certificate.now) }
{
    match check(alloc, certificate) {
        Ok(Verdict::Joins) => Ok(()),
        Ok(Verdict::Refused { line, reason }) => Err(NumbersFault::Certificate { line, reason }),
        Err(_) => Err(NumbersFault::OutOfMemory),
    }
}

/// The rings of a table under the moves of a valid certificate. They have the tables of its fiber.
fn walk_fiber<R: Threads + Sync, G: Gate + Sync>(
    rt: &R,
    alloc: Global,
    certificate: &Certificate,
    observed: &Table,
    limit: u32,
    workers: u32,
    gate: &G,
) -> Result<Rings, NumbersFault>
    requires valid { IsValid certificate.now }
    requires cells { length observed.now ≡ length certificate.now.matrix.columns }
    requires margins { All (λ margin. margin < 2 ^ 32)
        (margins_of certificate.now.matrix observed.now) }
    requires some { 1 ≤ limit }
    requires small { limit ≤ most_tables }
    requires some_worker { 1 ≤ workers }
    requires few_workers { workers ≤ 64 }
    ensures few { Gives numbers_cause (λ rings. tt) result
        (small_enough limit (fiber_of certificate.now.matrix observed.now)) }
    ensures rings { IfOk result (λ walked.
        walked.rings ≡ rings_of certificate.now.matrix certificate.now.moves observed.now) }
    ensures claims { IfOk result (AreClaims
        (digits_of certificate.now.matrix (margins_of certificate.now.matrix observed.now))) }
{
    let matrix = certificate.matrix();
    let moves = certificate.moves();
    match walk(rt, alloc, matrix, moves, observed, limit, workers, gate) {
        Ok(rings) => Ok(rings),
        Err(WalkFault::TooLarge { seen }) => Err(NumbersFault::TooLarge { seen }),
        Err(WalkFault::OutOfMemory) => Err(NumbersFault::OutOfMemory),
    }
}

/// The weight of the observed table and the sums over the rings of its fiber, by so many workers.
fn weigh<R: Threads + Sync>(
    rt: &R,
    certificate: &Certificate,
    measure: &Measure,
    observed: &Table,
    rings: &Rings,
    workers: u32,
) -> Result<Weighed, NumbersFault>
    requires valid { IsValid certificate.now }
    requires cells { length observed.now ≡ length certificate.now.matrix.columns }
    requires measure { IsMeasureOf certificate.now.matrix measure.now }
    requires rings { rings.now.rings
        ≡ rings_of certificate.now.matrix certificate.now.moves observed.now }
    requires some_worker { 1 ≤ workers }
    requires few_workers { workers ≤ 64 }
    ensures fraction { Gives numbers_cause weighed_fraction result
        (narrow (exact_p_value certificate.now.matrix measure.now observed.now)) }
    ensures weight { IfOk result (λ w. w.weight ≡ weight_of measure.now observed.now) }
    ensures order { IfOk result (λ w.
        (1 ≤ w.weight) × (w.weight ≤ w.below) × (w.below ≤ w.whole)) }
{
    let matrix = certificate.matrix();
    match fraction_by(rt, matrix, measure, observed, rings.all(), workers) {
        Some(weighed) => Ok(weighed),
        None => Err(NumbersFault::TooWide),
    }
}

/// The number of tables in each ring.
fn sizes_of(alloc: Global, rings: &Rings) -> Result<Vec<u32>, AllocError>
    ensures { IfOk result (λ sizes. sizes.items ≡ map length rings.now.rings) }
{
    let _total = rings.total();
    let count = rings.len();
    let mut sizes = Vec::with_capacity(alloc, count as usize)?;
    for k in 0..count {
        sizes.push(rings.ring(k).len() as u32)?;
    }
    Ok(sizes)
}

/// The numbers of the exact test of an observed table, given its margins, by the moves of a
/// certificate (Diaconis and Sturmfels 1998): the certificate is checked, the fiber of the table is
/// walked by its moves, and the weights of the tables are summed.
///
/// The table has the cells of the certificate's matrix, and each of its margins fits 32 bits. The
/// measure is one on this matrix. The limit is 1 to 2,000,000 tables, and the walk is done by 1 to
/// 64 workers, which pass the gate before each table. The figures are the same for any number of
/// them; where the tables of the fiber have keys of 64 bits, they have the root of the claims of
/// these keys.
///
/// Refused are, in this order: a certificate with a wrong line (`Certificate`), a fiber of more
/// tables than the limit (`TooLarge`), and weights that add up to 2^128 or more (`TooWide`). Want
/// of memory can come in place of any answer.
pub fn numbers<R: Threads + Sync, G: Gate + Sync>(
    rt: &R,
    alloc: Global,
    certificate: &Certificate,
    measure: &Measure,
    observed: &Table,
    limit: u32,
    workers: u32,
    gate: &G,
) -> Result<Figures, NumbersFault>
    requires cells { length observed.now ≡ length certificate.now.matrix.columns }
    requires margins { All (λ margin. margin < 2 ^ 32)
        (margins_of certificate.now.matrix observed.now) }
    requires measure { IsMeasureOf certificate.now.matrix measure.now }
    requires some { 1 ≤ limit }
    requires small { limit ≤ most_tables }
    requires some_worker { 1 ≤ workers }
    requires few_workers { workers ≤ 64 }
    ensures exact { Gives numbers_cause numbers_in result
        (numbers_of limit certificate.now measure.now observed.now) }
    ensures test { IfOk result
        (AreFigures certificate.now.matrix certificate.now.moves measure.now observed.now) }
    ensures claims { IfOk result (λ figures. AreClaims
        (digits_of certificate.now.matrix (margins_of certificate.now.matrix observed.now))
        (record {
          rings = rings_of certificate.now.matrix certificate.now.moves observed.now;
          claims = figures.claims;
        })) }
    ensures order { IfOk result (λ figures.
        (1 ≤ figures.weight) × (figures.weight ≤ figures.below) × (figures.below ≤ figures.whole)) }
{
    let _parts = certificate.matrix();
    accept(alloc, certificate)?;
    let rings = walk_fiber(rt, alloc, certificate, observed, limit, workers, gate)?;
    let weighed = weigh(rt, certificate, measure, observed, &rings, workers)?;
    let sizes = sizes_of(alloc, &rings)?;
    Ok(Figures {
        rings: sizes,
        weight: weighed.weight,
        below: weighed.below,
        whole: weighed.whole,
        claims: rings.into_claims(),
    })
}
