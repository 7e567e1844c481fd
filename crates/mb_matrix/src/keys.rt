//! Keys and ranks: 64-bit numbers of the tables of a fiber.

ghost use Rattle.std.specs.Option.{SomeIff};
ghost use Rattle.std.specs.Prelude.{
  ◌%◌,
  ◌*◌,
  ◌+ℤ◌,
  ◌+◌,
  ◌<◌,
  ◌^◌,
  ◌≡◌,
  ◌≤◌,
  All,
  IfOk,
  List,
  length,
  option_map,
  pos,
  suc,
  vec_items,
  ℕ,
  ℤ,
};
ghost use Rattle.mb_matrix.specs.Key.{
  IsDelta,
  Suits,
  bound_of,
  digits_of,
  key_count,
  key_of,
  number,
  rank_of,
};
ghost use Rattle.mb_matrix.specs.Peel.{peel_of};
ghost use Rattle.mb_matrix.specs.declared.digit.Digit.{Digit};
ghost use Rattle.mb_tables.specs.Step.{Adds, Moved};

use crate::digit::Digit;
use crate::matrix::Matrix;
use crate::peel::{Peel, Peeled};
use mb_tables::{Move, OutOfMemory, Sign, Table};
use std::alloc::Global;
use std::marker::Model;

/// The bound of a cell: the least of the margins divided by the entries above 0 of its column.
fn bound_of(matrix: &Matrix, margins: &[u64], cell: u32) -> u64
    requires cell { cell < length matrix.now.columns }
    requires margins { length margins.now ≡ matrix.now.rows }
    ensures { result ≡ bound_of matrix.now margins.now cell }
{
    let mut bound = u64::MAX;
    for row in 0..matrix.rows() {
        let entry = u64::from(matrix.entry(row, cell));
        if entry > 0 {
            bound = bound.min(margins[row as usize] / entry);
        }
    }
    bound
}

/// So many keys with one digit more, where there are fewer than 2^64.
fn larger_size(size: u64, bound: u64) -> Option<u64>
    requires { 1 ≤ size }
    ensures { SomeIff result (size * suc bound < 2 ^ 64) (size * suc bound) }
{
    match bound.checked_add(1) {
        None => None,
        Some(radix) => size.checked_mul(radix),
    }
}

/// The digits of these margins, where they make fewer than 2^64 keys.
fn few_digits(
    alloc: Global,
    matrix: &Matrix,
    peel: &Peel,
    margins: &[u64],
) -> Result<Option<Vec<Digit>>, OutOfMemory>
    requires peel { peel.now ≡ peel_of matrix.now }
    requires margins { length margins.now ≡ matrix.now.rows }
    ensures { IfOk result (λ digits. SomeIff (option_map vec_items digits)
        (key_count (digits_of matrix.now margins.now) < 2 ^ 64)
        (digits_of matrix.now margins.now)) }
{
    let mut digits = Vec::with_capacity(alloc, peel.steps().len())?;
    let mut size = 1;
    for step in peel.steps() {
        if let Peeled::Free { cell } = *step {
            let bound = bound_of(matrix, margins, cell);
            match larger_size(size, bound) {
                None => return Ok(None),
                Some(more) => size = more,
            }
            digits.push(Digit { cell, bound })?;
        }
    }
    Ok(Some(digits))
}

/// Keys of the tables of a fiber, seen as the digits that make them: the free cells in ascending
/// order, each with its bound. There are fewer than 2^64.
#[derive(Drop)]
pub struct Keys {
    digits: Vec<Digit>,
    reversed: Vec<Digit>,
}

impl Model for Keys {
    ghost use Rattle.std.specs.Prelude.{List};
    ghost use Rattle.mb_matrix.specs.declared.digit.Digit.{Digit};
    ghost use Rattle.mb_matrix.specs.loops.Digits.{AreKept};

    ghost Value = { List Digit };

    ghost view = { λ k. k.digits.items };

    ghost invariant = { λ k. AreKept k.digits.items k.reversed.items };
}

impl Keys {
    /// The keys of the tables of these margins. There are none exactly where the product of
    /// bound + 1 over the free cells is 2^64 or more.
    pub fn of(
        alloc: Global,
        matrix: &Matrix,
        peel: &Peel,
        margins: &[u64],
    ) -> Result<Option<Keys>, OutOfMemory>
        requires peel { peel.now ≡ peel_of matrix.now }
        requires margins { length margins.now ≡ matrix.now.rows }
        ensures { IfOk result (λ keys. SomeIff keys
            (key_count (digits_of matrix.now margins.now) < 2 ^ 64)
            (digits_of matrix.now margins.now)) }
    {
        match few_digits(alloc, matrix, peel, margins)? {
            None => Ok(None),
            Some(digits) => {
                let mut reversed = Vec::from_slice(alloc, digits.as_slice())?;
                reversed.reverse();
                Ok(Some(Keys { digits, reversed }))
            }
        }
    }

    /// The free cells in ascending order, each with its bound.
    pub fn digits(&self) -> &[Digit]
        ensures digits { result.now ≡ self.now }
        ensures fits { key_count self.now < 2 ^ 64 }
    {
        self.digits.as_slice()
    }

    /// The key of a table that suits, as each table of the fiber does: 1 or more. It takes no
    /// memory.
    pub fn key(&self, table: &Table) -> u64
        requires { Suits self.now table.now }
        ensures key { result ≡ key_of self.now table.now }
        ensures some { 1 ≤ result }
        ensures most { result ≤ key_count self.now }
    {
        1 + number_of(self.digits.as_slice(), table.as_slice())
    }

    /// The rank of a table that suits, as each table of the fiber does: ranks ascend with the
    /// tables. Ranks count from 0. It takes no memory.
    pub fn rank(&self, table: &Table) -> u64
        requires { Suits self.now table.now }
        ensures rank { result ≡ rank_of self.now table.now }
        ensures below { result < key_count self.now }
    {
        number_of(self.reversed.as_slice(), table.as_slice())
    }

    /// What a move adds to a key, up to multiples of 2^64: `moved_key` steps with it.
    pub fn delta(&self, z: &Move) -> u64
        requires { All (λ d. d.cell < length z.now) self.now }
        ensures { IsDelta (key_of self.now) self.now z.now result }
    {
        delta_of(self.digits.as_slice(), z)
    }

    /// What a move adds to a rank, up to multiples of 2^64: `moved_key` steps with it.
    pub fn rank_delta(&self, z: &Move) -> u64
        requires { All (λ d. d.cell < length z.now) self.now }
        ensures { IsDelta (rank_of self.now) self.now z.now result }
    {
        delta_of(self.reversed.as_slice(), z)
    }
}

/// The key (or the rank) of the table that a step along a move makes, from the key (the rank)
/// before and what the move adds to it.
pub fn moved_key(key: u64, delta: u64, sign: Sign) -> u64
    ensures { (value : List ℕ → ℕ) (digits : List Digit) (move : List ℤ) (u v : List ℕ) →
        IsDelta value digits move delta → key ≡ value u → Moved sign u move v → Suits digits v →
        result ≡ value v }
{
    match sign {
        Sign::Plus => key.wrapping_add(delta),
        Sign::Minus => key.wrapping_sub(delta),
    }
}

/// The mixed-radix number of these counts.
fn number_of(digits: &[Digit], counts: &[u32]) -> u64
    requires suits { Suits digits.now counts.now }
    requires few { key_count digits.now < 2 ^ 64 }
    ensures number { result ≡ number digits.now counts.now }
    ensures below { result < key_count digits.now }
{
    let mut sum = 0;
    let mut place = 1;
    for digit in digits {
        sum += place * u64::from(counts[digit.cell as usize]);
        place *= digit.bound + 1;
    }
    sum
}

/// What a move adds to a mixed-radix number, up to multiples of 2^64.
fn delta_of(digits: &[Digit], z: &Move) -> u64
    requires cells { All (λ d. d.cell < length z.now) digits.now }
    requires few { key_count digits.now < 2 ^ 64 }
    ensures added { (u v : List ℕ) → Adds u z.now v →
        (number digits.now u + result) % 2 ^ 64 ≡ number digits.now v % 2 ^ 64 }
    ensures fits { result < 2 ^ 64 }
{
    let mut delta = 0u64;
    let mut place = 1u64;
    for digit in digits {
        delta = moved_by(delta, place, z.entry(digit.cell));
        place *= digit.bound + 1;
    }
    delta
}

/// A number plus a place value times an entry, up to multiples of 2^64.
fn moved_by(delta: u64, place: u64, entry: i32) -> u64
    ensures { (x y : ℕ) → pos y ≡ (pos x +ℤ entry) →
        (place * x + result) % 2 ^ 64 ≡ (place * y + delta) % 2 ^ 64 }
{
    let change = place.wrapping_mul(u64::from(entry.unsigned_abs()));
    if entry < 0 {
        delta.wrapping_sub(change)
    } else {
        delta.wrapping_add(change)
    }
}
