//! Two sums of weights over the same tables.

ghost use Rattle.std.specs.Prelude.{◌≡◌, ◌+◌, ◌<◌, ◌≤◌, ◌^◌};
ghost use Rattle.std.specs.Option.{SomeIff};
ghost use Rattle.mb_weights.specs.loops.Parts.{both, single};

use crate::adding::Sum;

/// The summed weight of the tables that weigh at most so much, and that of all.
#[derive(Clone, Copy)]
pub struct Sums {
    pub below: u128,
    pub whole: u128,
}

impl Sums {
    /// The sums over no tables.
    pub fn new() -> Sums
        ensures { result ≡ record { below = 0; whole = 0 } }
    {
        Sums { below: 0, whole: 0 }
    }

    /// The sums over a table of this weight.
    pub fn of_weight(w: u128, most: u128) -> Sums
        ensures { result ≡ single most w }
    {
        Sums {
            below: if w <= most { w } else { 0 },
            whole: w,
        }
    }

    /// These sums and those over other tables, added up, or none exactly where the sum over all is
    /// 2^128 or more. The first is a part of the second, so it is no wider.
    pub fn plus(self, other: Sums) -> Option<Sums>
        requires part { self.below ≤ self.whole }
        requires other_part { other.below ≤ other.whole }
        ensures { SomeIff result (self.whole + other.whole < 2 ^ 128) (both self other) }
    {
        let mut whole = Sum::new();
        if !whole.add(self.whole) || !whole.add(other.whole) {
            return None;
        }
        Some(Sums {
            below: self.below + other.below,
            whole: whole.value(),
        })
    }
}
