//! The laws of claims, each the contract of a function that does nothing.

ghost use Rattle.mb_claims.specs.Laws.{
  AKeyIsWonOnce,
  AWonKeyIsNew,
  EachRunKeepsTheRule,
  GatheredIsStored,
};

/// Law: the rule of words and views holds after any steps of any passes, in whatever order.
pub fn each_run_keeps_the_rule()
    ensures { EachRunKeepsTheRule }
{}

/// Law: no word holds a key before the step that wins it.
pub fn a_won_key_is_new()
    ensures { AWonKeyIsNew }
{}

/// Law: a key is won by one pass.
pub fn a_key_is_won_once()
    ensures { AKeyIsWonOnce }
{}

/// Law: where no pass is open, the root has gathered exactly the stored keys.
pub fn gathered_is_stored()
    ensures { GatheredIsStored }
{}
