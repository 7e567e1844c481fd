//! Laws of the decisions, each the contract of a function that does nothing.
ghost use Rattle.mb_desk.specs.Calls.{CallsAreReplayed, RepeatsAlike};
ghost use Rattle.mb_desk.specs.SoundLaws.{
  RepeatsAreUnchanged,
  SoundIsNotRefused,
  StepsKeepSoundness,
};

/// Law: whatever calls were made, the world that they leave is the one after the requests that were
/// accepted, in order.
#[tactic(auto, using(crate::proofs::Replaying::calls_are_replayed))]
pub fn calls_are_replayed()
    ensures { CallsAreReplayed }
{}

/// Law: a request that is accepted and changes nothing may be repeated, with the same answer.
#[tactic(auto, using(crate::proofs::Replaying::repeats_alike))]
pub fn repeats_alike()
    ensures { RepeatsAlike }
{}

/// Law: a request that kept a record may be repeated while all rows and files stand; that changes
/// nothing, and its answer differs in the first word alone.
pub fn repeats_are_unchanged()
    ensures { RepeatsAreUnchanged }
{}

/// Law: a registry without rows is sound, and sound rows are sound after every list of accepted
/// requests.
#[tactic(auto, using(crate::proofs::SoundSteps::steps_keep_soundness))]
pub fn steps_keep_soundness()
    ensures { StepsKeepSoundness }
{}

/// Law: over sound rows no request is refused for a record that is none, and none but the check of
/// a file for a line of a certificate.
#[tactic(auto, using(crate::proofs::SoundLooks::sound_is_not_refused))]
pub fn sound_is_not_refused()
    ensures { SoundIsNotRefused }
{}
