//! How many keys there are.

ghost use Rattle.std.specs.Prelude.{◌≡◌};
ghost use Rattle.mb_matrix.specs.Key.{key_count};

use mb_matrix::Keys;

/// How many keys the tables of a fiber can have: the product of bound + 1 over the free cells.
pub fn key_total(keys: &Keys) -> u64
    ensures { result ≡ key_count keys.now }
{
    let digits = keys.digits();
    let mut total = 1;
    for digit in digits {
        total *= digit.bound + 1;
    }
    total
}
