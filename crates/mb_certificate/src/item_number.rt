//! The numbers that items of a certificate are.

use mb_text::{plain_number, plain_signed};

/// A type of numbers that an item can be.
pub trait ItemNumber: Copy {
    ghost use Rattle.std.specs.Prelude.{◌≡◌, List, Option, ℕ};

    /// The number of an item.
    ghost of_item: { List ℕ → Option Self };

    /// The number that an item is, in the one spelling of numbers and within its range.
    fn of(item: &[u8]) -> Option<Self>
        ensures { result ≡ of_item item.now };
}

/// Exponents of monomials, up to 65,535.
impl ItemNumber for u16 {
    ghost use Rattle.mb_certificate.specs.CertificateText.{exponent};

    ghost of_item = { exponent };

    fn of(item: &[u8]) -> Option<u16> {
        match plain_number(item, u128::from(u16::MAX)) {
            Some(n) => Some(n as u16),
            None => None,
        }
    }
}

/// Numbers of rules, below 2^32.
impl ItemNumber for u32 {
    ghost use Rattle.mb_certificate.specs.CertificateText.{rule_number};

    ghost of_item = { rule_number };

    fn of(item: &[u8]) -> Option<u32> {
        match plain_number(item, u128::from(u32::MAX)) {
            Some(n) => Some(n as u32),
            None => None,
        }
    }
}

/// Lengths of lists, below 2^64.
impl ItemNumber for u64 {
    ghost use Rattle.mb_certificate.specs.CertificateText.{list_length};

    ghost of_item = { list_length };

    fn of(item: &[u8]) -> Option<u64> {
        match plain_number(item, u128::from(u64::MAX)) {
            Some(n) => Some(n as u64),
            None => None,
        }
    }
}

/// Entries of moves, of a size below 2^31.
impl ItemNumber for i32 {
    ghost use Rattle.mb_certificate.specs.CertificateText.{entry};

    ghost of_item = { entry };

    fn of(item: &[u8]) -> Option<i32> {
        match plain_signed(item, i32::MAX as u64) {
            Some(z) => Some(z as i32),
            None => None,
        }
    }
}

/// Numbers of moves with signs: not 0, and of a size below 2^32.
impl ItemNumber for i64 {
    ghost use Rattle.mb_certificate.specs.CertificateText.{signed_number};

    ghost of_item = { signed_number };

    fn of(item: &[u8]) -> Option<i64> {
        match plain_signed(item, u64::from(u32::MAX)) {
            Some(z) if z != 0 => Some(z),
            _ => None,
        }
    }
}
