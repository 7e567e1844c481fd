//! Records.
ghost use Rattle.std.specs.Option.{option_map};
ghost use Rattle.std.specs.Prelude.{◌≡◌};
ghost use Rattle.mb_registry.specs.Records.{kind_of, reference_of, referring_kind};
ghost use Rattle.mb_registry.specs.RecordsSeen.{record_value};

use crate::kinds::Kind;
use crate::names::Name;
use mb_certificate::Certificate;
use mb_data::Dataset;
use mb_kinds::Model;
use mb_reports::Analysis;

/// A record: a dataset, a log-linear model, a certificate of a Markov basis, or the report of an
/// exact test, each but the first with the name of the record that it refers to.
#[derive(Drop)]
pub enum Record {
    /// A dataset.
    Dataset(Dataset),
    /// A model of the dataset of this name.
    Model {
        dataset: Name,
        model: Model,
    },
    /// A certificate of a basis of the model of this name.
    Basis {
        model: Name,
        certificate: Certificate,
    },
    /// An analysis, which has the names of its basis, model and dataset.
    Analysis(Analysis),
}

impl Record {
    /// Its kind.
    pub fn kind(&self) -> Kind
        ensures { result ≡ kind_of (record_value self.now) }
    {
        match self {
            Record::Dataset(_) => Kind::Dataset,
            Record::Model { .. } => Kind::Model,
            Record::Basis { .. } => Kind::Basis,
            Record::Analysis(_) => Kind::Analysis,
        }
    }

    /// The kind and the name of the record that it refers to, if any.
    pub fn reference(&self) -> Option<(Kind, &str)>
        ensures { option_map (λ r. (r.0, r.1.now)) result ≡ reference_of (record_value self.now) }
    {
        match self {
            Record::Dataset(_) => None,
            Record::Model { dataset, model: _ } => Some((Kind::Dataset, dataset.text())),
            Record::Basis {
                model,
                certificate: _,
            } => Some((Kind::Model, model.text())),
            Record::Analysis(analysis) => Some((Kind::Basis, analysis.basis.as_str())),
        }
    }
}

/// The kind of the records that refer to those of a kind.
pub(crate) fn referring_kind(kind: Kind) -> Option<Kind>
    ensures { result ≡ referring_kind kind }
{
    match kind {
        Kind::Dataset => Some(Kind::Model),
        Kind::Model => Some(Kind::Basis),
        Kind::Basis => Some(Kind::Analysis),
        Kind::Analysis => None,
    }
}
