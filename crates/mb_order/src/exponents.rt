//! Loops over exponents. Where a set of symbols is at hand, only the symbols in it are visited:
//! a monomial has few of them.

ghost use Rattle.std.specs.Prelude.{◌≡◌, ◌≤◌, ◌-◌, ◌+◌, length, ℕ};
ghost use Rattle.mb_order.specs.Symbols.{IsSetOf};
ghost use Rattle.mb_tables.specs.Vectors.{at, greater, within};

/// The set of the symbols whose exponent is above 0.
pub fn set_of(exponents: &[u16]) -> u128
    requires { length exponents.now ≤ 128 }
    ensures { IsSetOf result exponents.now }
{
    let mut set = 0u128;
    for (k, exponent) in exponents.iter().enumerate() {
        if *exponent > 0 {
            set |= 1u128 << k;
        }
    }
    set
}

/// Whether no exponent passes that of the other list at its place, where the set has the symbols
/// that occur in the first.
pub fn is_within(set: u128, low: &[u16], high: &[u16]) -> bool
    requires set { IsSetOf set low.now }
    requires long { length low.now ≡ length high.now }
    ensures { result ≡ within low.now high.now }
{
    let mut rest = set;
    while rest != 0 {
        let k = rest.trailing_zeros();
        if low[k as usize] > high[k as usize] {
            return false;
        }
        rest &= !(1u128 << k);
    }
    true
}

/// Raises each exponent to that of the other list at its place, where that is greater.
pub fn raise(exponents: &mut [u16], others: &[u16])
    requires { length others.now ≡ length exponents.old }
    ensures { exponents.new ≡ greater exponents.old others.now }
{
    for (k, exponent) in exponents.iter_mut().enumerate() {
        *exponent = (*exponent).max(others[k]);
    }
}

/// Puts the exponents of `right` in place of those of `left`. The set has the symbols of these
/// two; the answer is the set of the symbols that then occur, where `occurring` has those before.
pub fn put_right(
    exponents: &mut [u16],
    occurring: u128,
    set: u128,
    left: &[u16],
    right: &[u16],
) -> u128
    requires left_long { length left.now ≡ length exponents.old }
    requires right_long { length right.now ≡ length exponents.old }
    requires few { length exponents.old ≤ 128 }
    requires occurring { IsSetOf occurring exponents.old }
    requires touched { IsSetOf set (greater left.now right.now) }
    requires divides { (k : ℕ) → at left.now k ≤ at exponents.old k }
    requires small { (k : ℕ) →
        at right.now k + (at exponents.old k - at left.now k) ≤ 65535 }
    ensures each { (k : ℕ) →
        at exponents.new k ≡ at right.now k + (at exponents.old k - at left.now k) }
    ensures long { length exponents.new ≡ length exponents.old }
    ensures occurring { IsSetOf result exponents.new }
{
    let mut now = occurring;
    let mut rest = set;
    while rest != 0 {
        let k = rest.trailing_zeros();
        let exponent = exponents[k as usize] - left[k as usize] + right[k as usize];
        exponents[k as usize] = exponent;
        let bit = 1u128 << k;
        if exponent > 0 {
            now |= bit;
        } else {
            now &= !bit;
        }
        rest &= !bit;
    }
    now
}
