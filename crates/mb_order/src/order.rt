//! The two orders of monomials.

ghost use Rattle.std.specs.Cmp.Lexicographic.{slice_cmp};
ghost use Rattle.std.specs.Ordering.{nat_cmp};
ghost use Rattle.std.specs.Prelude.{◌≡◌, ◌≤◌, length, reverse, sum};
ghost use Rattle.mb_order.specs.Monomial.{HaveOneShape};
ghost use Rattle.mb_order.specs.Order.{cells_cmp, graded, monomial_cmp};

use crate::monomial::Monomial;
use std::cmp::Ordering;

/// How the cells' exponents of monomials are compared.
#[derive(Clone, Copy, PartialEq, Eq)]
pub enum Order {
    /// Lexicographic: the first exponent that differs decides.
    Lex,
    /// Graded reverse lexicographic: the degree decides, and then the last exponent that differs,
    /// of which the smaller makes the larger monomial.
    Grevlex,
}

/// The sum of exponents.
pub(crate) fn degree(exponents: &[u16]) -> u32
    requires { length exponents.now ≤ 128 }
    ensures { result ≡ sum exponents.now }
{
    let mut sum = 0u32;
    for exponent in exponents {
        sum += u32::from(*exponent);
    }
    sum
}

/// Compares from the end, where the smaller exponent makes the larger monomial.
fn compare_ends(a: &[u16], b: &[u16]) -> Ordering
    requires { length a.now ≡ length b.now }
    ensures { result ≡ slice_cmp nat_cmp (reverse b.now) (reverse a.now) }
{
    let mut k = a.len();
    while k > 0 {
        k -= 1;
        let ends = b[k].cmp(&a[k]);
        if ends != Ordering::Equal {
            return ends;
        }
    }
    Ordering::Equal
}

/// Compares by degree, and then from the end.
fn compare_graded(a: &[u16], b: &[u16]) -> Ordering
    requires long { length a.now ≡ length b.now }
    requires few { length a.now ≤ 128 }
    ensures { result ≡ graded a.now b.now }
{
    degree(a).cmp(&degree(b)).then_with(|| compare_ends(a, b))
}

impl Order {
    /// Compares two monomials of one shape. The margins' exponents decide, graded reverse
    /// lexicographically, and where these are equal, those of the cells. It takes no memory.
    #[tactic(auto, unfolding(crate::specs::Order::monomial_cmp))]
    pub fn compare(self, a: &Monomial, b: &Monomial) -> Ordering
        requires { HaveOneShape a.now b.now }
        ensures { result ≡ monomial_cmp self a.now.margins a.now.list b.now.list }
    {
        let margins = a.margins() as usize;
        let (a_margins, a_cells) = a.as_slice().split_at(margins);
        let (b_margins, b_cells) = b.as_slice().split_at(margins);
        match compare_graded(a_margins, b_margins) {
            Ordering::Equal => self.compare_cells(a_cells, b_cells),
            first => first,
        }
    }

    /// Compares the exponents of cells.
    fn compare_cells(self, a: &[u16], b: &[u16]) -> Ordering
        requires long { length a.now ≡ length b.now }
        requires few { length a.now ≤ 128 }
        ensures { result ≡ cells_cmp self a.now b.now }
    {
        match self {
            Order::Lex => a.cmp(b),
            Order::Grevlex => compare_graded(a, b),
        }
    }
}
