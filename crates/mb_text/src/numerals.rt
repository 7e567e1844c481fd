//! The numbers that tokens are.

ghost use Rattle.std.specs.Prelude.{◌≡◌, ◌≤◌, IfSome, min};
ghost use Rattle.std.specs.Option.{option_map};
ghost use Rattle.std.specs.Char.{is_ascii_digit};
ghost use Rattle.mb_text.specs.Numerals.{natural_of, number_of, with_sign};
ghost use Rattle.mb_text.specs.loops.Capped.{capped, capped_signed};

/// Past this, a number's size no longer matters.
const CAP: u64 = 4_294_967_296;

/// Whether a byte is a decimal digit.
pub fn is_digit(b: u8) -> bool
    ensures { result ≡ is_ascii_digit b }
{
    48 <= b && b <= 57
}

/// The number that one or more decimal digits write, or 4,294,967,296 where it is greater; none
/// where there is no digit, or another byte.
pub fn capped_natural(digits: &[u8]) -> Option<u64>
    ensures number { result ≡ option_map capped (natural_of digits.now) }
    ensures bound { IfSome result (λ n. n ≤ 4294967296) }
{
    if digits.is_empty() {
        return None;
    }
    let mut n: u64 = 0;
    for b in digits {
        if !is_digit(*b) {
            return None;
        }
        n = (n * 10 + u64::from(*b - 48)).min(CAP);
    }
    Some(n)
}

/// Whether a token begins with a minus, and the token without its sign.
#[tactic(auto, using(crate::proofs::NumberSteps::sign_steps))]
fn sign_and_digits(token: &[u8]) -> (bool, &[u8])
    ensures { number_of token.now ≡ option_map (with_sign result.0) (natural_of result.1.now) }
{
    if token.is_empty() {
        return (false, token);
    }
    let (_, digits) = token.split_at(1);
    if token[0] == b'-' {
        (true, digits)
    } else if token[0] == b'+' {
        (false, digits)
    } else {
        (false, token)
    }
}

/// The number of a token: an optional sign and one or more decimal digits. Where its size is
/// above 4,294,967,296, that size with its sign.
pub fn capped_number(token: &[u8]) -> Option<i64>
    ensures { result ≡ option_map capped_signed (number_of token.now) }
{
    let (minus, digits) = sign_and_digits(token);
    match capped_natural(digits) {
        None => None,
        Some(n) if minus => Some(-(n as i64)),
        Some(n) => Some(n as i64),
    }
}
