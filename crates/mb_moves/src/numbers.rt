//! The sizes and entries that tokens are.

ghost use Rattle.std.specs.Prelude.{◌≡◌, IfOk};
ghost use Rattle.mb_tables.specs.Entries.{IsEntry};
ghost use Rattle.mb_moves.specs.GridText.{entry_of, size_of};

use crate::fault::GridFault;
use mb_text::capped_number;

/// The size that a token is, from the lowest to the highest.
pub fn size_of(token: &[u8], lowest: u32, highest: u32) -> Result<u32, GridFault>
    ensures { result ≡ size_of lowest highest token.now }
{
    match capped_number(token) {
        Some(n) if i64::from(lowest) <= n && n <= i64::from(highest) => Ok(n as u32),
        _ => Err(GridFault::NoSize),
    }
}

/// The entry that a token is. The place is the token's number in the text, from 1.
pub fn entry_of(token: &[u8], place: u32) -> Result<i32, GridFault>
    ensures entry { result ≡ entry_of place token.now }
    ensures sound { IfOk result IsEntry }
{
    match capped_number(token) {
        None => Err(GridFault::BadNumber { token: place }),
        Some(n) if -2_147_483_647 <= n && n <= 2_147_483_647 => Ok(n as i32),
        Some(_) => Err(GridFault::TooWideNumber { token: place }),
    }
}
