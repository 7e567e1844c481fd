//! Lines of numbers that have exactly one spelling.

ghost use Rattle.std.specs.Prelude.{◌≡◌};
ghost use Rattle.mb_tables.specs.Answers.{Gives};
ghost use Rattle.mb_text.specs.Faults.{in_line, wrong_line};
ghost use Rattle.mb_text.specs.Lines.{items};
ghost use Rattle.mb_text.specs.Plain.{each_of};

use crate::fault::LineFault;
use crate::pieces::next_item;
use crate::plain::{plain_number, plain_signed};
use std::alloc::Global;

/// A type of numbers that an item of a line can be.
pub trait PlainNumber: Copy {
    ghost use Rattle.std.specs.Prelude.{List, Option, ℕ};

    /// The number of an item.
    ghost of_item: { List ℕ → Option Self };

    /// The number that an item is, in the one spelling of numbers and within the type.
    fn read(item: &[u8]) -> Option<Self>
        ensures { result ≡ of_item item.now };
}

/// Numbers below 2^32.
impl PlainNumber for u32 {
    ghost use Rattle.std.specs.Prelude.{◌-◌, ◌^◌};
    ghost use Rattle.mb_text.specs.Plain.{at_most, plain_of};

    ghost of_item = { λ item. at_most (2 ^ 32 - 1) (plain_of item) };

    fn read(item: &[u8]) -> Option<u32> {
        match plain_number(item, u128::from(u32::MAX)) {
            Some(n) => Some(n as u32),
            None => None,
        }
    }
}

/// Numbers below 2^64.
impl PlainNumber for u64 {
    ghost use Rattle.std.specs.Prelude.{◌-◌, ◌^◌};
    ghost use Rattle.mb_text.specs.Plain.{at_most, plain_of};

    ghost of_item = { λ item. at_most (2 ^ 64 - 1) (plain_of item) };

    fn read(item: &[u8]) -> Option<u64> {
        match plain_number(item, u128::from(u64::MAX)) {
            Some(n) => Some(n as u64),
            None => None,
        }
    }
}

/// Numbers with a sign, of a size below 2^31.
impl PlainNumber for i32 {
    ghost use Rattle.std.specs.Prelude.{◌-◌, ◌^◌};
    ghost use Rattle.mb_text.specs.Plain.{plain_signed_of, size_at_most};

    ghost of_item = { λ item. size_at_most (2 ^ 31 - 1) (plain_signed_of item) };

    fn read(item: &[u8]) -> Option<i32> {
        match plain_signed(item, i32::MAX as u64) {
            Some(z) => Some(z as i32),
            None => None,
        }
    }
}

/// Numbers with a sign, of a size below 2^63.
impl PlainNumber for i64 {
    ghost use Rattle.std.specs.Prelude.{◌-◌, ◌^◌};
    ghost use Rattle.mb_text.specs.Plain.{plain_signed_of, size_at_most};

    ghost of_item = { λ item. size_at_most (2 ^ 63 - 1) (plain_signed_of item) };

    fn read(item: &[u8]) -> Option<i64> {
        plain_signed(item, i64::MAX as u64)
    }
}

/// The numbers of the line of this number, one space between each two. The line is wrong where it
/// isn't of this form.
pub fn read_numbers<N: PlainNumber>(
    alloc: Global,
    line: &[u8],
    number: u64,
) -> Result<Vec<N>, LineFault>
    ensures { Gives wrong_line (λ numbers. numbers.items) result
        (in_line number (each_of N.of_item (items line.now))) }
{
    let mut numbers = Vec::new(alloc);
    let mut rest = line;
    while let Some((item, after)) = next_item(rest) {
        match N::read(item) {
            None => return Err(LineFault::Wrong { line: number }),
            Some(n) => numbers.push(n)?,
        }
        rest = after;
    }
    match N::read(rest) {
        None => return Err(LineFault::Wrong { line: number }),
        Some(n) => numbers.push(n)?,
    }
    Ok(numbers)
}
