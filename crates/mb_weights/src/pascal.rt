//! Pascal's triangle of small numbers, on the stack.

ghost use Rattle.std.specs.Prelude.{◌≡◌, ◌+◌, ◌*◌, ◌<◌, ◌≤◌};
ghost use Rattle.mb_weights.specs.Binomial.{ways};
ghost use Rattle.mb_weights.specs.loops.SmallWays.{AreSmallWays, AreWaysBelow, kept_ways};

/// How many numbers of things, left or chosen, have their coefficients kept: 0 to 31.
pub const KEPT_WAYS: u64 = 32;

/// The first row, where nothing is left and everything is chosen in one way, and room for the rest.
fn first_row() -> [u64; 1024]
    ensures { AreWaysBelow result kept_ways }
{
    [1; 1024]
}

/// Fills one row by Pascal's rule, from the row above it. No sum overflows, since the coefficients
/// of at most 62 things are no more than 2^62.
fn fill_row(table: &mut [u64; 1024], row: u64)
    requires above { 1 ≤ row }
    requires row { row < kept_ways }
    requires rows { AreWaysBelow table.old (kept_ways * row) }
    ensures { AreWaysBelow table.new (kept_ways * (row + 1)) }
{
    table[(KEPT_WAYS * row) as usize] = 1;
    for count in 1..KEPT_WAYS {
        let place = KEPT_WAYS * row + count;
        let sum = table[(place - KEPT_WAYS) as usize] + table[(place - 1) as usize];
        table[place as usize] = sum;
    }
}

/// The binomial coefficients of small numbers, made once for many weights. It takes no memory.
pub fn small_ways() -> [u64; 1024]
    ensures { AreSmallWays result }
{
    let mut table = first_row();
    for row in 1..KEPT_WAYS {
        fill_row(&mut table, row);
    }
    table
}

/// In how many ways `count` things are chosen and `rest` left, looked up.
pub fn small_binomial(small: &[u64; 1024], rest: u64, count: u64) -> u64
    requires small { AreSmallWays small.now }
    requires rest { rest < kept_ways }
    requires count { count < kept_ways }
    ensures { result ≡ ways rest count }
{
    small[(KEPT_WAYS * rest + count) as usize]
}
