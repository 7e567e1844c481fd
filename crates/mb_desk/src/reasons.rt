//! The words for what can be wrong with a line of a certificate.
ghost use Rattle.std.specs.Prelude.{◌≡◌};
ghost use Rattle.mb_desk.specs.Reasons.{reason_word};

use mb_certificate::Reason;

/// The word of a reason.
pub fn reason_word(reason: Reason) -> &'static str
    ensures { result.now ≡ reason_word reason }
{
    match reason {
        Reason::MoveMargins => "MoveMargins",
        Reason::WeightDiffers => "WeightDiffers",
        Reason::NotDown => "NotDown",
        Reason::StartNotJoined => "StartNotJoined",
        Reason::PairMissing => "PairMissing",
        Reason::PeakTooHeavy => "PeakTooHeavy",
        Reason::StepNotApplicable => "StepNotApplicable",
        Reason::PairNotJoined => "PairNotJoined",
        Reason::PathMissing => "PathMissing",
        Reason::PathBelowZero => "PathBelowZero",
        Reason::PathEnd => "PathEnd",
    }
}
