//! What a record can be written to a file as.
ghost use Rattle.std.specs.Prelude.{◌≡◌};
ghost use Rattle.mb_desk.specs.Parts.{kind_of_part, part_word};

use mb_registry::Kind;

/// What `export` writes: a dataset, the matrix of a model, or of a basis its moves, its certificate
/// or the table of its rules.
#[derive(Clone, Copy, Debug, PartialEq, Eq)]
pub enum Part {
    /// A dataset as CSV.
    Dataset,
    /// The design matrix of a model.
    Matrix,
    /// The moves of a basis.
    Moves,
    /// The certificate of a basis.
    Certificate,
    /// The rules of a basis.
    Rules,
}

impl Part {
    /// Its word.
    pub fn word(self) -> &'static str
        ensures { result.now ≡ part_word self }
    {
        match self {
            Part::Dataset => "dataset",
            Part::Matrix => "matrix",
            Part::Moves => "moves",
            Part::Certificate => "certificate",
            Part::Rules => "rules",
        }
    }

    /// The kind of the record that it is of.
    pub fn kind(self) -> Kind
        ensures { result ≡ kind_of_part self }
    {
        match self {
            Part::Dataset => Kind::Dataset,
            Part::Matrix => Kind::Model,
            Part::Moves | Part::Certificate | Part::Rules => Kind::Basis,
        }
    }
}
