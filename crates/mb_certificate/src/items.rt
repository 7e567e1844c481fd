//! A line that is read item by item.

ghost use Rattle.std.specs.Prelude.{◌≡◌, ◌∷◌, ◌-◌, ◌≤◌, [], IfOk, MatchOption, Ok};
ghost use Rattle.mb_certificate.specs.CertificateText.{order_named};
ghost use Rattle.mb_tables.specs.Answers.{Gives};
ghost use Rattle.mb_text.specs.Lines.{items};

use crate::fault::ReadFault;
use crate::item_number::ItemNumber;
use mb_order::Order;
use mb_text::{next_item, number_within};
use std::marker::Model;

/// What is left of a line, seen as its items and its number.
#[derive(Drop)]
pub struct Items<'a> {
    rest: Option<&'a [u8]>,
    number: u64,
}

impl<'a> Model for Items<'a> {
    ghost use Rattle.std.specs.Option.{option_map};
    ghost use Rattle.mb_certificate.specs.Reading.{ItemsLeft};
    ghost use Rattle.mb_certificate.specs.loops.Counted.{items_left};

    ghost Value = { ItemsLeft };

    ghost view = { λ i.
        record { number = i.number; items = items_left (option_map (λ r. r.now) i.rest) } };
}

/// The order of a name.
fn order_named(item: &[u8]) -> Option<Order>
    ensures { result ≡ order_named item.now }
{
    if item == b"lex".as_slice() {
        Some(Order::Lex)
    } else if item == b"grevlex".as_slice() {
        Some(Order::Grevlex)
    } else {
        None
    }
}

impl<'a> Items<'a> {
    ghost use Rattle.mb_certificate.specs.CertificateText.{read_cause};
    ghost use Rattle.mb_certificate.specs.Reading.{line_ends, one, word};
    ghost use Rattle.mb_text.specs.Plain.{number_within};

    /// A whole line, of this number.
    pub fn of(line: &'a [u8], number: u64) -> Items<'a>
        ensures { result ≡ record { number = number; items = items line.now } }
    {
        Items {
            rest: Some(line),
            number,
        }
    }

    /// Takes the next item.
    fn next(&mut self) -> Option<&'a [u8]>
        ensures number { self.new.number ≡ self.old.number }
        ensures items { MatchOption result (self.old.items ≡ [])
            (λ item. self.old.items ≡ item.now ∷ self.new.items) }
    {
        let line = self.rest?;
        match next_item(line) {
            None => {
                self.rest = None;
                Some(line)
            }
            Some((item, rest)) => {
                self.rest = Some(rest);
                Some(item)
            }
        }
    }

    /// The fault of a line that is wrong.
    fn wrong(&self) -> ReadFault
        ensures { read_cause result ≡ Some self.now.number }
    {
        ReadFault::Text { line: self.number }
    }

    /// The number of the line.
    pub fn number(&self) -> u64
        ensures { result ≡ self.now.number }
    {
        self.number
    }

    /// How many numbers the rest of the line can have at most: each takes a byte or more.
    pub fn most(&self) -> u64 {
        match self.rest {
            None => 0,
            Some(rest) => rest.len() as u64,
        }
    }

    /// Takes a number.
    pub fn one<N: ItemNumber>(&mut self) -> Result<N, ReadFault>
        ensures { Gives read_cause (λ n. (n, self.new)) result (one N.of_item self.old) }
    {
        match self.next() {
            None => Err(self.wrong()),
            Some(item) => match N::of(item) {
                None => Err(self.wrong()),
                Some(n) => Ok(n),
            },
        }
    }

    /// Takes a number from the lowest to the highest.
    pub fn within(&mut self, lowest: u64, highest: u64) -> Result<u64, ReadFault>
        ensures number { Gives read_cause (λ n. (n, self.new)) result
            (one (number_within lowest highest) self.old) }
        ensures lowest { IfOk result (λ n. lowest ≤ n) }
        ensures highest { IfOk result (λ n. n ≤ highest) }
    {
        match self.next() {
            None => Err(self.wrong()),
            Some(item) => match number_within(item, lowest, highest) {
                None => Err(self.wrong()),
                Some(n) => Ok(n),
            },
        }
    }

    /// Takes a word.
    pub fn word(&mut self, wanted: &[u8]) -> Result<(), ReadFault>
        ensures { Gives read_cause (λ _. (tt, self.new)) result (one (word wanted.now) self.old) }
    {
        match self.next() {
            Some(item) if item == wanted => Ok(()),
            _ => Err(self.wrong()),
        }
    }

    /// Takes the name of an order.
    pub fn order(&mut self) -> Result<Order, ReadFault>
        ensures { Gives read_cause (λ o. (o, self.new)) result (one order_named self.old) }
    {
        match self.next() {
            None => Err(self.wrong()),
            Some(item) => match order_named(item) {
                None => Err(self.wrong()),
                Some(order) => Ok(order),
            },
        }
    }

    /// Whether the line ends here.
    pub fn end(&self) -> Result<(), ReadFault>
        ensures { Gives read_cause (λ _. tt) result (line_ends self.now) }
    {
        match self.rest {
            None => Ok(()),
            Some(_) => Err(self.wrong()),
        }
    }
}
