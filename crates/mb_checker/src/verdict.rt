//! What a checker says of a certificate.

use mb_certificate::Reason;

/// What a checker says of a certificate.
#[derive(Clone, Copy, PartialEq, Eq)]
pub enum Verdict {
    /// It is valid, so that its moves join any two tables of equal margins.
    Joins,
    /// It isn't: this line of its text, counted from 1, is the first wrong one.
    Refused { line: u64, reason: Reason },
}
