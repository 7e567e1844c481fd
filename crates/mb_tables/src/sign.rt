//! Which way a move is applied.

ghost use Rattle.std.specs.Prelude.{◌≡◌};

/// Whether a move is added to a table or subtracted from it.
#[derive(Clone, Copy, Debug, PartialEq, Eq)]
pub enum Sign {
    /// The move is added.
    Plus,
    /// The move is subtracted.
    Minus,
}

impl Sign {
    ghost use Rattle.mb_tables.specs.loops.Turn.{turned};

    /// The sign that undoes a step.
    pub(crate) fn opposite(self) -> Sign
        ensures { result ≡ turned self }
    {
        match self {
            Sign::Plus => Sign::Minus,
            Sign::Minus => Sign::Plus,
        }
    }
}
