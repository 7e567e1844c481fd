//! Texts that contracts see as their bytes, so that what holds them needs no second form in the
//! definitions.
ghost use Rattle.std.specs.Prelude.{◌≡◌, IfOk, string_bytes};

use std::alloc::{AllocError, Global};
use std::marker::Model;

/// A text of one's own, as a refusal carries it.
#[derive(Drop)]
pub struct Text {
    text: String,
}

impl Model for Text {
    ghost use Rattle.std.specs.Prelude.{List, string_bytes, ℕ};

    ghost Value = { List ℕ };

    ghost view = { λ text. string_bytes text.text };
}

impl Text {
    /// A copy of a text.
    pub fn copy_of(alloc: Global, text: &str) -> Result<Text, AllocError>
        ensures { IfOk result (λ copy. copy ≡ text.now) }
    {
        Ok(Text {
            text: String::from_str(alloc, text)?,
        })
    }

    /// The text.
    pub fn as_str(&self) -> &str
        ensures { result.now ≡ self.now }
    {
        self.text.as_str()
    }
}

/// Bytes of one's own: an answer, the body of a record or of a file.
#[derive(Drop)]
pub struct Body {
    bytes: Vec<u8>,
}

impl Model for Body {
    ghost use Rattle.std.specs.Prelude.{List, ℕ};

    ghost Value = { List ℕ };

    ghost view = { λ body. body.bytes.items };
}

impl Body {
    /// These bytes.
    pub fn of(bytes: Vec<u8>) -> Body
        ensures { result ≡ bytes.items }
    {
        Body { bytes }
    }

    /// The bytes of a line.
    pub fn of_line(line: String) -> Body
        ensures { result ≡ string_bytes line }
    {
        Body {
            bytes: line.into_bytes(),
        }
    }

    /// The bytes.
    pub fn as_slice(&self) -> &[u8]
        ensures { result.now ≡ self.now }
    {
        self.bytes.as_slice()
    }
}
