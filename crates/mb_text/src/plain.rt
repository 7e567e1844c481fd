//! Numbers that have exactly one spelling, alone and in lines.

ghost use Rattle.std.specs.Prelude.{◌≡◌, ◌<◌, ◌≤◌, ◌^◌, ◌*◌, ◌+◌, IfSome, SomeIff, pos};
ghost use Rattle.std.specs.Char.{is_ascii_digit};
ghost use Rattle.std.specs.List.{list_all};
ghost use Rattle.std.specs.Option.{option_and_then, option_map};
ghost use Rattle.mb_text.specs.LineForms.{is_numeral};
ghost use Rattle.mb_text.specs.Numerals.{natural_of};
ghost use Rattle.mb_text.specs.Plain.{
  at_most,
  below_zero,
  is_plain,
  number_within,
  plain_of,
  plain_signed_of,
  size_at_most,
};

use crate::numerals::is_digit;

/// Whether there is a byte and no needless 0 in front.
fn is_plain_item(item: &[u8]) -> bool
    ensures { result ≡ is_plain item.now }
{
    match item {
        [] => false,
        [_] => true,
        [first, _, ..] => *first != b'0',
    }
}

/// Whether each byte is a decimal digit.
fn are_digits(item: &[u8]) -> bool
    ensures { result ≡ list_all is_ascii_digit item.now }
{
    item.iter().all(|b| is_digit(*b))
}

/// Whether an item is a number, of any size: decimal without leading zeros.
pub fn is_numeral(item: &[u8]) -> bool
    ensures { result ≡ is_numeral item.now }
{
    is_plain_item(item) && are_digits(item)
}

/// A number with one more digit, where it is at most `highest`.
fn with_digit(n: u128, digit: u8, highest: u128) -> Option<u128>
    ensures { SomeIff result (n * 10 + digit ≤ highest) (n * 10 + digit) }
{
    let longer = n.checked_mul(10)?.checked_add(u128::from(digit))?;
    if longer <= highest {
        Some(longer)
    } else {
        None
    }
}

/// The number that one or more decimal digits write, where it is at most `highest`.
fn natural_within(digits: &[u8], highest: u128) -> Option<u128>
    ensures { result ≡ at_most highest (natural_of digits.now) }
{
    if digits.is_empty() {
        return None;
    }
    let mut n: u128 = 0;
    for b in digits {
        if !is_digit(*b) {
            return None;
        }
        match with_digit(n, *b - 48, highest) {
            None => return None,
            Some(longer) => n = longer,
        }
    }
    Some(n)
}

/// The same for limits that most numbers have: within these, one more digit fits 64 bits.
fn short_within(digits: &[u8], highest: u64) -> Option<u64>
    requires { highest < 2 ^ 60 }
    ensures { result ≡ at_most highest (natural_of digits.now) }
{
    if digits.is_empty() {
        return None;
    }
    let mut n: u64 = 0;
    for b in digits {
        if !is_digit(*b) {
            return None;
        }
        let longer = n * 10 + u64::from(*b - 48);
        if longer > highest {
            return None;
        }
        n = longer;
    }
    Some(n)
}

/// The number that an item is: decimal without leading zeros, and at most `highest`. None for
/// every other item.
#[tactic(auto, unfolding(crate::specs::Plain::plain_of))]
pub fn plain_number(item: &[u8], highest: u128) -> Option<u128>
    ensures { result ≡ at_most highest (plain_of item.now) }
{
    if !is_plain_item(item) {
        return None;
    }
    if highest >= 1 << 60 {
        return natural_within(item, highest);
    }
    match short_within(item, highest as u64) {
        None => None,
        Some(n) => Some(u128::from(n)),
    }
}

/// The number from the lowest to the highest that an item is: decimal without leading zeros. None
/// for every other item.
pub fn number_within(item: &[u8], lowest: u64, highest: u64) -> Option<u64>
    ensures number { result ≡ number_within lowest highest item.now }
    ensures low { IfSome result (λ n. lowest ≤ n) }
    ensures high { IfSome result (λ n. n ≤ highest) }
{
    match plain_number(item, u128::from(highest)) {
        Some(n) if u128::from(lowest) <= n => Some(n as u64),
        _ => None,
    }
}

/// The number that an item is, up to `highest`, as one with a sign.
fn plain_above(item: &[u8], highest: u64) -> Option<i64>
    requires { highest < 2 ^ 63 }
    ensures { result ≡ option_map pos (at_most highest (plain_of item.now)) }
{
    match plain_number(item, u128::from(highest)) {
        None => None,
        Some(n) => Some(n as i64),
    }
}

/// The negative of the number that an item is, from 1 up to `highest`.
fn plain_below(item: &[u8], highest: u64) -> Option<i64>
    requires { highest < 2 ^ 63 }
    ensures { result ≡ option_and_then below_zero (at_most highest (plain_of item.now)) }
{
    match plain_number(item, u128::from(highest)) {
        Some(n) if n > 0 => Some(-(n as i64)),
        _ => None,
    }
}

/// The number with a sign that an item is: decimal without leading zeros, after `-` where it is
/// below 0, and of a size of at most `highest`. None for every other item.
pub fn plain_signed(item: &[u8], highest: u64) -> Option<i64>
    requires { highest < 2 ^ 63 }
    ensures { result ≡ size_at_most highest (plain_signed_of item.now) }
{
    if item.is_empty() || item[0] != b'-' {
        return plain_above(item, highest);
    }
    let (_, digits) = item.split_at(1);
    plain_below(digits, highest)
}
