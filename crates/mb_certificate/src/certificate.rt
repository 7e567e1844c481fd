//! A certificate.

ghost use Rattle.std.specs.Prelude.{◌≡◌, All, length, map};
ghost use Rattle.mb_certificate.specs.Certificate as parts;
ghost use Rattle.mb_certificate.specs.Sides.{PairSuits, sides};

use crate::parts::{Join, Pair, Path, Start};
use mb_matrix::Matrix;
use mb_order::Order;
use mb_tables::Moves;
use std::marker::Model;

/// A certificate that a list of moves is a Markov basis of a matrix, seen as its parts. They have
/// the shapes and ranges of its text; whether they prove anything is for a checker to say.
#[derive(Drop)]
pub struct Certificate {
    matrix: Matrix,
    order: Order,
    moves: Moves,
    rules: Vec<Pair>,
    starts: Vec<Start>,
    joins: Vec<Join>,
    paths: Vec<Path>,
}

impl Model for Certificate {
    ghost use Rattle.mb_certificate.specs.Certificate as parts;
    ghost use Rattle.mb_certificate.specs.Sides.{AreHeld, parts_of};

    ghost Value = { parts.Certificate };

    ghost view = { λ c. parts_of c.matrix c.order c.moves c.rules.items c.starts.items
        c.joins.items c.paths.items };

    ghost invariant = { λ c. AreHeld c.matrix c.order c.moves c.rules.items c.starts.items
        c.joins.items c.paths.items };
}

impl Certificate {
    ghost use Rattle.mb_certificate.specs.Sides.{AreHeld, parts_of};

    /// The certificate of these parts. It takes no memory.
    pub fn new(
        matrix: Matrix,
        order: Order,
        moves: Moves,
        rules: Vec<Pair>,
        starts: Vec<Start>,
        joins: Vec<Join>,
        paths: Vec<Path>,
    ) -> Certificate
        requires { AreHeld matrix order moves rules.items starts.items joins.items paths.items }
        ensures { result
            ≡ parts_of matrix order moves rules.items starts.items joins.items paths.items }
    {
        Certificate {
            matrix,
            order,
            moves,
            rules,
            starts,
            joins,
            paths,
        }
    }

    /// The matrix.
    pub fn matrix(&self) -> &Matrix
        ensures matrix { result.now ≡ self.now.matrix }
        ensures sound { parts.AreParts self.now }
    {
        &self.matrix
    }

    /// The order of monomials.
    pub fn order(&self) -> Order
        ensures { result ≡ self.now.order }
    {
        self.order
    }

    /// The moves, which are over the cells of the matrix.
    pub fn moves(&self) -> &Moves
        ensures moves { result.now.rows ≡ self.now.moves }
        ensures width { result.now.width ≡ length self.now.matrix.columns }
        ensures sound { parts.AreParts self.now }
    {
        &self.moves
    }

    /// The rules, whose monomials are those of the matrix.
    pub fn rules(&self) -> &[Pair]
        ensures rules { map sides result.now ≡ self.now.rules }
        ensures shape { All (PairSuits self.now.matrix) result.now }
        ensures sound { parts.AreParts self.now }
    {
        self.rules.as_slice()
    }

    /// The starts, one a cell.
    pub fn starts(&self) -> &[Start]
        ensures starts { result.now ≡ self.now.starts }
        ensures sound { parts.AreParts self.now }
    {
        self.starts.as_slice()
    }

    /// The joins.
    pub fn joins(&self) -> &[Join]
        ensures joins { result.now ≡ self.now.joins }
        ensures sound { parts.AreParts self.now }
    {
        self.joins.as_slice()
    }

    /// The paths.
    pub fn paths(&self) -> &[Path]
        ensures paths { result.now ≡ self.now.paths }
        ensures sound { parts.AreParts self.now }
    {
        self.paths.as_slice()
    }
}
