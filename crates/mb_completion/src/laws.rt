//! The laws of completion, each the contract of a function that does nothing.

ghost use Rattle.mb_completion.specs.Laws.{
  Completion,
  Corners,
  FinishedIsCertified,
  FinishedRun,
  LightPeaks,
  MadeIsOne,
  MadeIsValid,
  OneForm,
  OneOutcome,
  OneReduced,
  OutcomeIsComputed,
  Reduced,
  Reduction,
};
ghost use Rattle.mb_completion.specs.SampleRun.{SampleBasis, SampleMeetsPremises, SampleRun};

/// Law: where pairs and starts meet, each monomial leads to the least of its class, and one that
/// no rule fits is that.
pub fn completion()
    ensures { Completion }
{}

/// Law: of such rules the minimal left sides are the corners.
pub fn corners()
    ensures { Corners }
{}

/// Law: reducing such rules gives the reduced basis.
pub fn reduction()
    ensures { Reduction }
{}

/// Law: the rules of the reduced basis are valid, and their pairs and starts meet.
pub fn reduced()
    ensures { Reduced }
{}

/// Law: by the reduced basis, monomials of equal weight have one normal form.
pub fn one_form()
    ensures { OneForm }
{}

/// Law: there is one list of the reduced basis that ascends by left side.
pub fn one_reduced()
    ensures { OneReduced }
{}

/// Law: the rules of a finished run are valid, and their pairs and starts meet.
pub fn finished_run()
    ensures { FinishedRun }
{}

/// Law: the peaks of a finished run are not too heavy.
pub fn light_peaks()
    ensures { LightPeaks }
{}

/// Law: a run has one end.
pub fn one_outcome()
    ensures { OneOutcome }
{}

/// Law: this end can be computed.
pub fn outcome_is_computed()
    ensures { OutcomeIsComputed }
{}

/// Law: the rules of a finished run make a valid certificate.
pub fn finished_is_certified()
    ensures { FinishedIsCertified }
{}

/// Law: a certificate that is made of the reduced basis is valid.
pub fn made_is_valid()
    ensures { MadeIsValid }
{}

/// Law: a certificate that is made of the reduced basis of a finished run is the one that is
/// computed of the run.
pub fn made_is_one()
    ensures { MadeIsOne }
{}

/// Law: a worked run of one look.
pub fn sample_run()
    ensures { SampleRun }
{}

/// Law: the reduced basis of the worked run's matrix.
pub fn sample_basis()
    ensures { SampleBasis }
{}

/// Law: the worked run, its reduced basis and the certificate made of it meet each premise of the
/// laws above, so none of them is out of reach.
pub fn sample_meets_premises()
    ensures { SampleMeetsPremises }
{}
