//! Binomial coefficients within 128 bits.

ghost use Rattle.std.specs.Prelude.{◌+◌, ◌*◌, ◌/◌, ◌<◌, ◌≤◌, ◌^◌};
ghost use Rattle.std.specs.Option.{SomeIff};
ghost use Rattle.mb_weights.specs.Binomial.{ways};
ghost use Rattle.mb_weights.specs.loops.SmallWays.{AreSmallWays};

use crate::pascal::{KEPT_WAYS, small_binomial};

/// The product, or none where it is 2^128 or more. One multiplication where both factors have 64
/// bits.
pub fn times(a: u128, b: u128) -> Option<u128>
    ensures { SomeIff result (a * b < 2 ^ 128) (a * b) }
{
    if a <= 18_446_744_073_709_551_615 && b <= 18_446_744_073_709_551_615 {
        return Some(u128::from(a as u64) * u128::from(b as u64));
    }
    a.checked_mul(b)
}

/// A value times `top` over `by`, rounded down, by the quotient and the remainder of the value.
/// The product may pass 128 bits: only where the quotient does there is none.
fn scaled_wide(value: u128, top: u64, by: u64) -> Option<u128>
    requires { 0 < by }
    ensures { SomeIff result (value * top / by < 2 ^ 128) (value * top / by) }
{
    let top = u128::from(top);
    let by = u128::from(by);
    let whole = (value / by).checked_mul(top)?;
    whole.checked_add(value % by * top / by)
}

/// A value times `top` over `by`, rounded down, or none where that is 2^128 or more. Small numbers
/// are divided as such, which is several times faster.
fn scaled(value: u128, top: u64, by: u64) -> Option<u128>
    requires { 0 < by }
    ensures { SomeIff result (value * top / by < 2 ^ 128) (value * top / by) }
{
    if value <= 4_294_967_295 && top <= 4_294_967_295 {
        let product = value as u64 * top;
        return Some(u128::from(if by == 1 { product } else { product / by }));
    }
    scaled_wide(value, top, by)
}

/// In how many ways `few` things are chosen and `many` left. The coefficients grow with each
/// thing, so the first that passes 128 bits ends the count; and they at least double, so that
/// comes within 128 things.
fn ways_by_steps(many: u64, few: u64) -> Option<u128>
    requires chosen { few ≤ many }
    requires things { many + few < 2 ^ 64 }
    ensures { SomeIff result (ways many few < 2 ^ 128) (ways many few) }
{
    let mut found = 1;
    for chosen in 0..few {
        found = scaled(found, many + (chosen + 1), chosen + 1)?;
    }
    Some(found)
}

/// In how many ways `count` things are chosen and `rest` left, `rest + count` over `count`, or
/// none where that is 2^128 or more. Small numbers are looked up, since going by steps costs a
/// division for each thing chosen.
pub fn binomial(small: &[u64; 1024], rest: u64, count: u32) -> Option<u128>
    requires small { AreSmallWays small.now }
    requires things { rest + count < 2 ^ 64 }
    ensures { SomeIff result (ways rest count < 2 ^ 128) (ways rest count) }
{
    let count = u64::from(count);
    if rest < KEPT_WAYS && count < KEPT_WAYS {
        return Some(u128::from(small_binomial(small, rest, count)));
    }
    if rest < count {
        ways_by_steps(count, rest)
    } else {
        ways_by_steps(rest, count)
    }
}
