//! Sums of weights within 128 bits.

ghost use Rattle.std.specs.Prelude.{◌≡◌, ◌↔◌, ◌+◌, ◌<◌, ◌^◌, IsTrue};
ghost use Rattle.std.specs.Bool.{OnFalse, OnTrue};

use std::marker::Model;

/// A sum of weights, seen as the number that it is, below 2^128.
#[derive(Drop)]
pub struct Sum {
    value: u128,
}

impl Model for Sum {
    ghost use Rattle.std.specs.Prelude.{ℕ, ◌<◌, ◌^◌};

    ghost Value = { ℕ };

    ghost view = { λ s. s.value };

    ghost invariant = { λ s. s.value < 2 ^ 128 };
}

impl Sum {
    /// The sum of no weights.
    pub fn new() -> Sum
        ensures { result ≡ 0 }
    {
        Sum { value: 0 }
    }

    /// Adds a weight. The answer is false exactly where the sum would be 2^128 or more, and then
    /// the sum is as it was. It takes no memory.
    pub fn add(&mut self, w: u128) -> bool
        ensures exact { IsTrue result ↔ (self.old + w < 2 ^ 128) }
        ensures added { OnTrue result (self.new ≡ self.old + w) }
        ensures kept { OnFalse result (self.new ≡ self.old) }
    {
        match self.value.checked_add(w) {
            Some(value) => {
                self.value = value;
                true
            }
            None => false,
        }
    }

    /// The sum of the weights added so far.
    pub fn value(&self) -> u128
        ensures sum { result ≡ self.now }
        ensures fits { self.now < 2 ^ 128 }
    {
        self.value
    }
}
