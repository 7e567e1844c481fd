//! A text that is read line by line.

ghost use Rattle.std.specs.Prelude.{◌≡◌, ◌≤◌, ◌^◌, ◌-◌, Ok};
ghost use Rattle.mb_tables.specs.Answers.{Gives};

use crate::fault::ReadFault;
use crate::items::Items;
use mb_text::next_line;
use std::marker::Model;

/// What is left of a text, seen as its pieces between line ends and the number of the first.
#[derive(Drop)]
pub struct Lines<'a> {
    text: &'a [u8],
    number: u64,
}

impl<'a> Model for Lines<'a> {
    ghost use Rattle.mb_certificate.specs.Reading.{LinesLeft};
    ghost use Rattle.mb_certificate.specs.loops.Counted.{AreCounted};
    ghost use Rattle.mb_text.specs.Lines.{lines};

    ghost Value = { LinesLeft };

    ghost view = { λ l. record { number = l.number; pieces = lines l.text.now } };

    ghost invariant = { λ l. AreCounted l.number l.text.now };
}

impl<'a> Lines<'a> {
    ghost use Rattle.mb_certificate.specs.CertificateText.{read_cause};
    ghost use Rattle.mb_certificate.specs.Reading.{lines_of, next_line, text_ends};

    /// A whole text.
    pub fn of(text: &'a [u8]) -> Lines<'a>
        ensures { result ≡ lines_of text.now }
    {
        Lines { text, number: 1 }
    }

    /// The number of the next line.
    pub fn number(&self) -> u64
        ensures number { result ≡ self.now.number }
        ensures first { 1 ≤ self.now.number }
    {
        self.number
    }

    /// Takes the next line. It is wrong where it is empty, and where it has no line end.
    pub fn next(&mut self) -> Result<Items<'a>, ReadFault>
        ensures { Gives read_cause (λ line. (line, self.new)) result (next_line self.old) }
    {
        match next_line(self.text) {
            Some((line, rest)) if !line.is_empty() => {
                let items = Items::of(line, self.number);
                self.text = rest;
                self.number += 1;
                Ok(items)
            }
            _ => Err(ReadFault::Text { line: self.number }),
        }
    }

    /// Whether the text ends here.
    pub fn end(&self) -> Result<(), ReadFault>
        ensures { Gives read_cause (λ _. tt) result (text_ends self.now) }
    {
        if self.text.is_empty() {
            Ok(())
        } else {
            Err(ReadFault::Text { line: self.number })
        }
    }
}
