//! The rule of the words and the kinds of step on them, as types that `atomic_table` asks for. No
//! value of them is made.

use crate::views::View;
use atomic_table::{Join, Play, Split, TableRule};

/// The rule of words and views. It holds between any two steps, whichever threads make them.
pub struct ClaimRule;

impl TableRule<u8, View, Vec<usize>> for ClaimRule {
    ghost use Rattle.mb_claims.specs.ClaimRule.{IsClaimed};
    ghost use Rattle.mb_claims.specs.ClaimStep.{new_root};

    ghost holds = { λ sizes state. IsClaimed sizes.items state.words state.views };

    ghost first = { λ sizes. new_root sizes.items };
}

/// A pass's compare-and-exchange of a word from 0 to a key: a won step where it finds 0, else a met
/// step.
pub struct Tries;

impl Play<u8, View> for Tries {
    ghost use Rattle.mb_claims.specs.ClaimStep.{tries};

    ghost then = { tries };
}

/// The root opens a pass.
pub struct Opens;

impl Split<View> for Opens {
    ghost use Rattle.mb_claims.specs.ClaimStep.{opened_pass, opened_root};

    ghost left = { opened_root };

    ghost right = { opened_pass };
}

/// The root takes over a pass.
pub struct Gathers;

impl Join<View> for Gathers {
    ghost use Rattle.mb_claims.specs.ClaimStep.{gathered_root};
    ghost use Rattle.mb_claims.specs.declared.views.View.TheVariants.{Spent};

    ghost both = { gathered_root };

    ghost spent = { Spent };
}

/// The root's load of word 0 as it gathers, which changes no view: it tells the root what the rule
/// says of its view.
pub struct Looks;

impl Play<u8, View> for Looks {
    ghost use Rattle.mb_claims.specs.ClaimStep.{looks};

    ghost then = { looks };
}
