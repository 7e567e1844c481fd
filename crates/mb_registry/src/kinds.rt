//! The kinds of records.
ghost use Rattle.std.specs.Prelude.{◌≡◌};
ghost use Rattle.mb_registry.specs.Kinds.{kind_number, kind_word};

/// A kind of records.
#[derive(Clone, Copy, Debug, PartialEq, Eq)]
pub enum Kind {
    /// A dataset.
    Dataset,
    /// A model.
    Model,
    /// A basis.
    Basis,
    /// An analysis.
    Analysis,
}

impl Kind {
    /// The number that the keeper knows it by.
    pub fn number(self) -> u8
        ensures { result ≡ kind_number self }
    {
        match self {
            Kind::Dataset => 1,
            Kind::Model => 2,
            Kind::Basis => 3,
            Kind::Analysis => 4,
        }
    }

    /// Its word.
    pub fn word(self) -> &'static str
        ensures { result.now ≡ kind_word self }
    {
        match self {
            Kind::Dataset => "dataset",
            Kind::Model => "model",
            Kind::Basis => "basis",
            Kind::Analysis => "analysis",
        }
    }
}
