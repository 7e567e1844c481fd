//! Monomials in the symbols of margins and cells.

ghost use Rattle.std.specs.Prelude.{◌≡◌, ◌<◌, ◌≤◌, ◌+◌, ◌++◌, All, IfOk, length, true, ℕ};
ghost use Rattle.std.specs.Bool.{OnFalse, OnTrue};
ghost use Rattle.mb_order.specs.Limits.{largest_exponent};
ghost use Rattle.mb_order.specs.MarginFree.{margin_free};
ghost use Rattle.mb_order.specs.Monomial.{AreExponents, HaveOneShape};
ghost use Rattle.mb_order.specs.Rewriting.{made};
ghost use Rattle.mb_order.specs.Symbols.{IsSetOf};
ghost use Rattle.mb_tables.specs.Vectors.{at, greater, shares, within};

use crate::exponents;
use mb_tables::OutOfMemory;
use std::alloc::Global;
use std::marker::Model;

/// A monomial, seen as the number of margins' symbols and the list of all exponents, those of
/// the margins in front: 1 to 64 symbols of margins, 1 to 64 of cells, each exponent 0 to 65,535.
#[derive(Drop)]
pub struct Monomial {
    margins: u32,
    exponents: Vec<u16>,
    // a bit for each symbol that occurs: most tests for a divisor end here
    set: u128,
}

impl Model for Monomial {
    ghost use Rattle.mb_order.specs.Monomial.{Exponents};
    ghost use Rattle.mb_order.specs.Symbols.{IsMonomial};

    ghost Value = { Exponents };

    ghost view = { λ m. record { margins = m.margins; list = m.exponents.items } };

    ghost invariant = { λ m.
        IsMonomial (record { margins = m.margins; list = m.exponents.items }) m.set };
}

impl Monomial {
    /// The monomial of these exponents of margins and of cells.
    pub fn try_new(alloc: Global, margins: &[u16], cells: &[u16]) -> Result<Monomial, OutOfMemory>
        requires some_margins { 1 ≤ length margins.now }
        requires few_margins { length margins.now ≤ 64 }
        requires some_cells { 1 ≤ length cells.now }
        requires few_cells { length cells.now ≤ 64 }
        ensures margins { IfOk result (λ m. m.margins ≡ length margins.now) }
        ensures list { IfOk result (λ m. m.list ≡ margins.now ++ cells.now) }
    {
        let mut exponents = Vec::with_capacity(alloc, margins.len() + cells.len())?;
        exponents.extend_from_slice(margins)?;
        exponents.extend_from_slice(cells)?;
        Ok(Monomial {
            margins: margins.len() as u32,
            set: exponents::set_of(exponents.as_slice()),
            exponents,
        })
    }

    /// An equal monomial.
    pub fn try_copy(&self, alloc: Global) -> Result<Monomial, OutOfMemory>
        ensures { IfOk result (λ m. m ≡ self.now) }
    {
        Ok(Monomial {
            margins: self.margins,
            exponents: Vec::from_slice(alloc, self.exponents.as_slice())?,
            set: self.set,
        })
    }

    /// The number of margins' symbols, 1 to 64.
    pub fn margins(&self) -> u32
        ensures margins { result ≡ self.now.margins }
        ensures sound { AreExponents self.now }
    {
        self.margins
    }

    /// The number of cells' symbols, 1 to 64.
    pub fn cells(&self) -> u32
        ensures cells { length self.now.list ≡ self.now.margins + result }
        ensures sound { AreExponents self.now }
        ensures small { All (λ exponent. exponent ≤ largest_exponent) self.now.list }
    {
        let exponents = self.exponents.as_slice();
        exponents.len() as u32 - self.margins
    }

    /// The exponent of a margin's symbol. Margins count from 0.
    pub fn margin(&self, row: u32) -> u16
        requires { row < self.now.margins }
        ensures { result ≡ at self.now.list row }
    {
        self.exponents[row as usize]
    }

    /// The exponent of a cell's symbol. Cells count from 0.
    pub fn cell(&self, cell: u32) -> u16
        requires { self.now.margins + cell < length self.now.list }
        ensures { result ≡ at self.now.list (self.now.margins + cell) }
    {
        self.exponents[self.margins as usize + cell as usize]
    }

    /// All exponents, those of the margins in front.
    pub fn as_slice(&self) -> &[u16]
        ensures exponents { result.now ≡ self.now.list }
        ensures sound { AreExponents self.now }
    {
        self.exponents.as_slice()
    }

    /// The set of the symbols that occur, a bit for each, those of the margins first.
    pub fn symbols(&self) -> u128
        ensures { IsSetOf result self.now.list }
    {
        self.set
    }

    /// Whether two monomials of one shape are the same. It takes no memory.
    pub fn is_same(&self, other: &Monomial) -> bool
        requires { HaveOneShape self.now other.now }
        ensures same { OnTrue result (self.now ≡ other.now) }
        ensures differs { OnFalse result (self.now ≡ other.now → ⊥) }
    {
        if !self.divides(other) {
            return false;
        }
        other.divides(self)
    }

    /// Whether this monomial divides another of its shape: no exponent passes the other's.
    pub fn divides(&self, other: &Monomial) -> bool
        requires { HaveOneShape self.now other.now }
        ensures { result ≡ within self.now.list other.now.list }
    {
        let occurring = other.set;
        if self.set & !occurring != 0 {
            return false;
        }
        exponents::is_within(
            self.set,
            self.exponents.as_slice(),
            other.exponents.as_slice(),
        )
    }

    /// Whether some symbol occurs in both.
    pub fn shares(&self, other: &Monomial) -> bool
        ensures { result ≡ shares self.now.list other.now.list }
    {
        self.set & other.set != 0
    }

    /// Whether no margin's symbol occurs.
    pub fn margin_free(&self) -> bool
        ensures { result ≡ margin_free self.now.margins self.now.list }
    {
        self.set & ((1u128 << self.margins) - 1) == 0
    }

    /// The least common multiple with another monomial of its shape: the greater exponent at each
    /// symbol.
    pub fn lcm(&self, alloc: Global, other: &Monomial) -> Result<Monomial, OutOfMemory>
        requires { HaveOneShape self.now other.now }
        ensures margins { IfOk result (λ m. m.margins ≡ self.now.margins) }
        ensures list { IfOk result (λ m. m.list ≡ greater self.now.list other.now.list) }
    {
        let mut all = self.try_copy(alloc)?;
        all.raise_to_lcm(other);
        Ok(all)
    }

    /// Becomes the least common multiple of itself and another monomial of its shape. It takes no
    /// memory.
    pub fn raise_to_lcm(&mut self, other: &Monomial)
        requires { HaveOneShape other.now self.old }
        ensures margins { self.new.margins ≡ self.old.margins }
        ensures list { self.new.list ≡ greater self.old.list other.now.list }
    {
        exponents::raise(self.exponents.as_mut_slice(), other.exponents.as_slice());
        self.set |= other.set;
    }

    /// Becomes a copy of another monomial of its shape. It takes no memory.
    pub fn copy_from(&mut self, other: &Monomial)
        requires { HaveOneShape other.now self.old }
        ensures { self.new ≡ other.now }
    {
        self.exponents
            .as_mut_slice()
            .copy_from_slice(other.exponents.as_slice());
        self.set = other.set;
    }

    /// Divides by `left` and multiplies by `right`, and answers true. Where `left` doesn't divide,
    /// nothing changes and the answer is false. It takes no memory.
    pub fn rewrite(&mut self, left: &Monomial, right: &Monomial) -> bool
        requires left_shape { HaveOneShape left.now self.old }
        requires right_shape { HaveOneShape right.now self.old }
        requires small { within left.now.list self.old.list ≡ true
            → (k : ℕ) → at (made (left.now.list, right.now.list) self.old.list) k
            ≤ largest_exponent }
        ensures divides { result ≡ within left.now.list self.old.list }
        ensures made { OnTrue result
            (self.new.list ≡ made (left.now.list, right.now.list) self.old.list) }
        ensures kept { OnFalse result (self.new ≡ self.old) }
        ensures shape { HaveOneShape self.new self.old }
    {
        if !left.divides(self) {
            return false;
        }
        self.set = exponents::put_right(
            self.exponents.as_mut_slice(),
            self.set,
            left.set | right.set,
            left.exponents.as_slice(),
            right.exponents.as_slice(),
        );
        true
    }
}
