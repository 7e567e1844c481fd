//! Names of records.
ghost use Rattle.std.specs.Prelude.{◌≡◌, string_bytes};
ghost use Rattle.mb_registry.specs.Names.{name_cause, named};
ghost use Rattle.mb_registry.specs.declared.names.NameFault.TheVariants.{OutOfMemory};
ghost use Rattle.mb_tables.specs.Answers.{Gives};
ghost use Rattle.mb_text.specs.Name.{IsName};

use mb_text::is_name;
use std::alloc::{AllocError, Global};
use std::marker::Model;

/// Why a text is no name.
#[derive(Clone, Copy, Debug, PartialEq, Eq)]
pub enum NameFault {
    /// It hasn't the form of a name.
    BadName,
    /// Out of memory.
    OutOfMemory,
}

impl From<AllocError> for NameFault {
    ghost from_gives = { λ _ fault. fault ≡ OutOfMemory };

    fn from(_: AllocError) -> NameFault {
        NameFault::OutOfMemory
    }
}

/// The name of a record: 1 to 64 of `a` to `z`, `0` to `9`, `-` and `_`, the first not `-`.
/// Contracts see its bytes.
#[derive(Drop)]
pub struct Name {
    text: String,
}

impl Model for Name {
    ghost use Rattle.std.specs.Prelude.{List, string_bytes, ℕ};
    ghost use Rattle.mb_text.specs.Name.{IsName};

    ghost Value = { List ℕ };

    ghost view = { λ name. string_bytes name.text };

    ghost invariant = { λ name. IsName (string_bytes name.text) };
}

impl Name {
    /// The name of these characters, where they have the form of one.
    pub fn try_new(alloc: Global, text: &str) -> Result<Name, NameFault>
        ensures { Gives name_cause (λ name. name) result (named text.now) }
    {
        if !is_name(text.as_bytes()) {
            return Err(NameFault::BadName);
        }
        Ok(Name {
            text: String::from_str(alloc, text)?,
        })
    }

    /// The name of a string that has the form of one.
    pub(crate) fn of(text: String) -> Name
        requires { IsName (string_bytes text) }
        ensures { result ≡ string_bytes text }
    {
        Name { text }
    }

    /// Its characters.
    pub fn text(&self) -> &str
        ensures text { result.now ≡ self.now }
        ensures form { IsName self.now }
    {
        self.text.as_str()
    }
}
