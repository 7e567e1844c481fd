//! Words of the command line, which contracts see as their bytes, and words with the form of names.
ghost use Rattle.std.specs.Prelude.{◌≡◌, MatchOption, false};
ghost use Rattle.mb_text.specs.Name.{IsName, is_name};

use mb_text::is_name;
use std::marker::Model;

/// A word of the command line.
#[derive(Drop)]
pub struct Word<'a> {
    text: &'a str,
}

impl<'a> Model for Word<'a> {
    ghost use Rattle.std.specs.Prelude.{List, ℕ};

    ghost Value = { List ℕ };

    ghost view = { λ word. word.text.now };
}

impl<'a> Word<'a> {
    /// This word.
    pub fn of(text: &'a str) -> Word<'a>
        ensures { result ≡ text.now }
    {
        Word { text }
    }

    /// The same word.
    pub fn again(&self) -> Word<'a>
        ensures { result ≡ self.now }
    {
        Word { text: self.text }
    }

    /// The word as text.
    pub fn as_str(&self) -> &'a str
        ensures { result.now ≡ self.now }
    {
        self.text
    }
}

/// A word of the command line that has the form of a record's name: 1 to 64 of `a` to `z`, `0` to
/// `9`, `-` and `_`, the first not `-`.
#[derive(Drop)]
pub struct NameWord<'a> {
    text: &'a str,
}

impl<'a> Model for NameWord<'a> {
    ghost use Rattle.std.specs.Prelude.{List, ℕ};
    ghost use Rattle.mb_text.specs.Name.{IsName};

    ghost Value = { List ℕ };

    ghost view = { λ name. name.text.now };

    ghost invariant = { λ name. IsName name.text.now };
}

impl<'a> NameWord<'a> {
    /// This word, where it is a name.
    pub fn of(text: &'a str) -> Option<NameWord<'a>>
        ensures { MatchOption result (is_name text.now ≡ false)
            (λ name. (name ≡ text.now) × IsName text.now) }
    {
        if !is_name(text.as_bytes()) {
            return None;
        }
        Some(NameWord { text })
    }

    /// The name as a word.
    pub fn word(&self) -> Word<'a>
        ensures { result ≡ self.now }
    {
        Word { text: self.text }
    }

    /// The name as text.
    pub fn as_str(&self) -> &'a str
        ensures text { result.now ≡ self.now }
        ensures name { IsName self.now }
    {
        self.text
    }
}
