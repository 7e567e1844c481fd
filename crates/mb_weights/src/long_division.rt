//! A fraction in decimals, by long division within 128 bits.

ghost use Rattle.std.specs.Prelude.{◌≡◌, ◌+◌, ◌*◌, ◌<◌, ◌≤◌};
ghost use Rattle.mb_weights.specs.Decimals.{decimals_of};

/// The sum of two numbers below the denominator, as the denominator so many times and a rest. The
/// sum itself may pass 128 bits.
fn added(a: u128, b: u128, denominator: u128) -> (u8, u128)
    requires first { a < denominator }
    requires second { b < denominator }
    ensures sum { a + b ≡ result.0 * denominator + result.1 }
    ensures rest { result.1 < denominator }
    ensures carry { result.0 ≤ 1 }
{
    if a < denominator - b {
        (0, a + b)
    } else {
        (1, a - (denominator - b))
    }
}

/// The next digit of a long division, and what it leaves: ten times the rest, added up.
fn next_digit(rest: u128, denominator: u128) -> (u8, u128)
    requires { rest < denominator }
    ensures tenfold { 10 * rest ≡ result.0 * denominator + result.1 }
    ensures rest { result.1 < denominator }
    ensures small { result.0 < 10 }
{
    let mut digit = 0u8;
    let mut left = 0u128;
    for _time in 0..10u8 {
        let (carry, sum) = added(left, rest, denominator);
        digit += carry;
        left = sum;
    }
    (digit, left)
}

/// The text of a fraction whose denominator is above 0 and whose numerator is at most that:
/// `1.000000` where they are equal, else `0.` and the first six decimals, cut off and not rounded.
/// It takes no memory.
pub fn decimals(numerator: u128, denominator: u128) -> [u8; 8]
    requires above { 0 < denominator }
    requires at_most { numerator ≤ denominator }
    ensures { result ≡ decimals_of numerator denominator }
{
    if numerator == denominator {
        return *b"1.000000";
    }
    let (first, rest) = next_digit(numerator, denominator);
    let (second, rest) = next_digit(rest, denominator);
    let (third, rest) = next_digit(rest, denominator);
    let (fourth, rest) = next_digit(rest, denominator);
    let (fifth, rest) = next_digit(rest, denominator);
    let (sixth, _) = next_digit(rest, denominator);
    [
        b'0',
        b'.',
        b'0' + first,
        b'0' + second,
        b'0' + third,
        b'0' + fourth,
        b'0' + fifth,
        b'0' + sixth,
    ]
}
