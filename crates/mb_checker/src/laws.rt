//! The laws of valid certificates, each the contract of a function that does nothing.

ghost use Rattle.mb_checker.specs.Laws.{
  SamplesAreValid,
  SamplesMeetPremises,
  ValidIsMarkov,
  ValidMeetsPremises,
};

/// Law: the moves of a valid certificate are a Markov basis of its matrix.
pub fn valid_is_markov()
    ensures { ValidIsMarkov }
{}

/// Law: valid certificates exist, without joins and with some.
pub fn samples_are_valid()
    ensures { SamplesAreValid }
{}

/// Law: the matrix, the order, the rules and the moves of a valid certificate meet each premise of
/// the laws of rewriting, of `mb_rules`.
pub fn valid_meets_premises()
    ensures { ValidMeetsPremises }
{}

/// Law: so no premise of those laws is out of reach: two worked certificates meet them all, each
/// with a fork and with two different tables of equal margins.
pub fn samples_meet_premises()
    ensures { SamplesMeetPremises }
{}
