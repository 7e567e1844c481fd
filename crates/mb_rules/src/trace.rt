//! The rules used on the way to a normal form.

ghost use Rattle.std.specs.Prelude.{◌≡◌};

use std::marker::Model;

/// The numbers of the rules that lead to a normal form, in the order in which they were used.
#[derive(Drop)]
pub struct Trace {
    pub(crate) steps: Vec<u32>,
}

impl Model for Trace {
    ghost use Rattle.std.specs.Prelude.{List, ℕ};

    ghost Value = { List ℕ };

    ghost view = { λ t. t.steps.items };
}

impl Trace {
    /// The numbers of the rules, in order, each from 0.
    pub fn steps(&self) -> &[u32]
        ensures { result.now ≡ self.now }
    {
        self.steps.as_slice()
    }
}
