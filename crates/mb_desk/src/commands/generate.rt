//! `generate SEED [--workers W]`.
ghost use Rattle.std.specs.Prelude.{◌≡◌, ◌++◌, ◌<◌, ◌≤◌, IfOk, OnOk, false, length, sum, ℕ};
ghost use Rattle.mb_certificate.specs.Valid.{IsValid};
ghost use Rattle.mb_desk.specs.Decision.{Follows, blames, stop_cause};
ghost use Rattle.mb_desk.specs.ExactTest.{fraction_in};
ghost use Rattle.mb_desk.specs.GenerateCommand.{
  digit,
  finished,
  fraction_lines,
  generate_plan,
  numbers_stop,
  seed_table,
  square_matrix,
  square_outcome,
  test_lines,
  tested_square,
};
ghost use Rattle.mb_desk.specs.Needs.{Neither, Touches};
ghost use Rattle.mb_matrix.specs.Matrix.{fiber_of};
ghost use Rattle.mb_rings.specs.Walk.{most_tables};
ghost use Rattle.mb_tables.specs.Answers.{Gives};

use crate::completing::complete_stop;
use crate::exact_test::{Figures, NumbersFault, numbers};
use crate::independence::{square_matrix, square_measure};
use crate::limits::{LARGEST_FIBER, LARGEST_LOOKS, Workers};
use crate::plans::{Change, Plan, Stop};
use crate::refusals::Refusal;
use mb_certificate::Certificate;
use mb_completion::{Completed, complete, make};
use mb_matrix::Matrix;
use mb_order::Order;
use mb_outside::Gate;
use mb_registry::Body;
use mb_tables::{OutOfMemory, Table};
use mb_text::{push_number, push_text, push_word_line};
use mb_weights::decimals;
use std::alloc::{AllocError, Global};
use std::thread::Threads;

/// Digit j of a number in base 3. Digits count from 0, which is the least significant.
fn digit(number: u32, j: u32) -> u32
    requires { j < 16 }
    ensures { result ≡ digit number j }
{
    number / 3u32.pow(j) % 3
}

/// The table of a seed: the digits of the seed in base 3, row by row.
fn seed_table(alloc: Global, seed: u32) -> Result<Table, AllocError>
    ensures { IfOk result (λ table. table ≡ seed_table seed) }
{
    let mut counts = Vec::with_capacity(alloc, 16)?;
    for j in 0..16 {
        counts.push(digit(seed, j))?;
    }
    match Table::try_new(alloc, counts.as_slice()) {
        Ok(table) => Ok(table),
        Err(_) => Err(AllocError),
    }
}

/// The certificate of the design matrix, completed by grevlex.
fn square_certificate(alloc: Global, matrix: &Matrix) -> Result<Certificate, Stop>
    requires { matrix.now ≡ square_matrix }
    ensures finished { Gives stop_cause (λ c. tt) result (finished square_outcome) }
    ensures matrix { IfOk result (λ c. c.matrix ≡ square_matrix) }
    ensures valid { IfOk result IsValid }
    ensures own { blames result ≡ false }
{
    let completed = match complete(alloc, matrix, Order::Grevlex, LARGEST_LOOKS) {
        Ok(completed) => completed,
        Err(fault) => return Err(complete_stop(fault)),
    };
    match make(alloc, matrix, &completed) {
        Ok(certificate) => Ok(certificate),
        Err(_) => Err(Stop::Memory),
    }
}

/// Why the work stops for the fault of an exact test.
pub fn numbers_stop(fault: NumbersFault) -> Stop
    ensures { result ≡ numbers_stop fault }
{
    match fault {
        NumbersFault::Certificate { line, reason } => {
            Stop::Refused(Refusal::Certificate { line, reason })
        }
        NumbersFault::TooLarge { seen } => Stop::Refused(Refusal::TooLarge { seen }),
        NumbersFault::TooWide => Stop::Refused(Refusal::TooWide),
        NumbersFault::OutOfMemory => Stop::Memory,
    }
}

/// The exact test of a table by a valid certificate of the design matrix.
fn test<R: Threads + Sync, G: Gate + Sync>(
    rt: &R,
    alloc: Global,
    certificate: &Certificate,
    table: &Table,
    workers: &Workers,
    gate: &G,
) -> Result<Figures, Stop>
    requires matrix { certificate.now.matrix ≡ square_matrix }
    requires valid { IsValid certificate.now }
    requires table { (seed : ℕ) × (table.now ≡ seed_table seed) }
    ensures fraction { Gives stop_cause fraction_in result (tested_square table.now) }
    ensures tables { IfOk result (λ figures.
        sum figures.rings.items ≡ length (fiber_of square_matrix table.now)) }
    ensures few { IfOk result (λ figures. sum figures.rings.items ≤ most_tables) }
    ensures order { IfOk result (λ figures. figures.below ≤ figures.whole) }
    ensures positive { IfOk result (λ figures. 1 ≤ figures.whole) }
    ensures own { blames result ≡ false }
{
    let measure = square_measure(alloc, certificate.matrix())?;
    match numbers(
        rt,
        alloc,
        certificate,
        &measure,
        table,
        LARGEST_FIBER,
        workers.count(),
        gate,
    ) {
        Ok(figures) => Ok(figures),
        Err(fault) => Err(numbers_stop(fault)),
    }
}

/// The number of tables in all rings.
fn total(sizes: &[u32]) -> u64
    requires { sum sizes.now ≤ most_tables }
    ensures { result ≡ sum sizes.now }
{
    let mut total = 0;
    for size in sizes {
        total += u64::from(*size);
    }
    total
}

/// Puts the lines of a fraction: its two numbers, and its first six decimals.
fn push_fraction(out: &mut Vec<u8>, below: u128, whole: u128) -> Result<(), OutOfMemory>
    requires order { below ≤ whole }
    requires positive { 1 ≤ whole }
    ensures { OnOk result (out.new.items ≡ out.old.items ++ fraction_lines below whole) }
{
    push_text(out, b"fraction ")?;
    push_number(out, below)?;
    push_text(out, b"/")?;
    push_number(out, whole)?;
    push_text(out, b"\ndecimals ")?;
    push_text(out, &decimals(below, whole))?;
    push_text(out, b"\n")?;
    Ok(())
}

/// The lines that are printed.
fn lines(alloc: Global, table: &Table, figures: &Figures) -> Result<Body, OutOfMemory>
    requires few { sum figures.now.rings.items ≤ most_tables }
    requires order { figures.now.below ≤ figures.now.whole }
    requires positive { 1 ≤ figures.now.whole }
    ensures { IfOk result (λ text. text
        ≡ test_lines table.now (sum figures.now.rings.items) (fraction_in figures.now)) }
{
    let mut out = Vec::new(alloc);
    push_word_line(&mut out, b"table", table.as_slice())?;
    push_word_line(&mut out, b"tables", &[total(figures.rings.as_slice())])?;
    push_fraction(&mut out, figures.below, figures.whole)?;
    Ok(Body::of(out))
}

/// The exact test of the table of a seed is printed. Nothing is stored.
pub fn plan<'a, R: Threads + Sync, G: Gate + Sync>(
    rt: &R,
    alloc: Global,
    seed: u32,
    workers: &Workers,
    gate: &G,
) -> Result<Plan<'a>, Stop>
    ensures decided { Follows result (generate_plan seed) }
    ensures own { blames result ≡ false }
    ensures touches { IfOk result (λ plan. Touches Neither plan.change) }
{
    let table = seed_table(alloc, seed)?;
    let matrix = square_matrix(alloc)?;
    let certificate = square_certificate(alloc, &matrix)?;
    let figures = test(rt, alloc, &certificate, &table, workers, gate)?;
    let Ok(answer) = lines(alloc, &table, &figures) else {
        return Err(Stop::Memory);
    };
    Ok(Plan {
        answer,
        change: Change::Nothing,
    })
}
