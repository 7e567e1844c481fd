//! The peel of a matrix, and keys and ranks of the tables of small fibers.

ghost use Rattle.std.specs.Prelude.{◌≡◌, length};

use crate::models::moves_of;
use mb_matrix::{Keys, Matrix, Peel, Peeled, moved_key};
use mb_samples::{keys_for, matrix_of, table_of};
use mb_tables::{Move, Moves, Sign, Table};
use std::alloc::Global;
use std::test::Fail;

/// A fiber, and the keys of its tables.
#[derive(Clone, Copy)]
struct Fiber {
    /// The text of the design matrix.
    matrix: &'static str,
    /// The cells in the order of the peel, each with the row that decides it, if there is one.
    peel: &'static str,
    /// The free cells, each with its bound.
    digits: &'static str,
    /// The tables, one a line, ascending.
    tables: &'static str,
    /// Some moves, one a line.
    moves: &'static str,
    /// The key and the rank of each table.
    keys: &'static str,
}

/// A peel in words.
fn text_of_peel(alloc: Global, peel: &Peel) -> Result<String, Fail> {
    let mut text = format!(in alloc; "peel")?;
    for step in peel.steps() {
        let more = match *step {
            Peeled::Free { cell } => format!(in alloc; " {cell}")?,
            Peeled::Decided { cell, row } => format!(in alloc; " {cell}:{row}")?,
        };
        text.push_str(more.as_str())?;
    }
    Ok(text)
}

/// The digits of keys in words.
fn text_of_digits(alloc: Global, keys: &Keys) -> Result<String, Fail> {
    let mut text = format!(in alloc; "digits")?;
    for digit in keys.digits() {
        let (cell, bound) = (digit.cell, digit.bound);
        let more = format!(in alloc; " {cell}:{bound}")?;
        text.push_str(more.as_str())?;
    }
    Ok(text)
}

/// The digits of the keys of these margins in words, or `none` where there are too many keys.
fn digits_of(alloc: Global, matrix: &Matrix, margins: &[u64]) -> Result<String, Fail> {
    if margins.len() != matrix.rows() as usize {
        return Err(Fail::from("another number of margins"));
    }
    let peel = Peel::of(alloc, matrix)?;
    match Keys::of(alloc, matrix, &peel, margins)? {
        None => Ok(format!(in alloc; "none")?),
        Some(keys) => text_of_digits(alloc, &keys),
    }
}

/// The key and the rank of a table in its fiber.
fn key_and_rank(alloc: Global, matrix: &Matrix, table: &Table) -> Result<(u64, u64), Fail>
    requires { length table.now ≡ length matrix.now.columns }
{
    let keys = keys_for(alloc, matrix, table)?;
    Ok((keys.key(table), keys.rank(table)))
}

/// Whether a table is read back from its key.
fn is_read_back(alloc: Global, matrix: &Matrix, table: &Table) -> Result<bool, Fail>
    requires { length table.now ≡ length matrix.now.columns }
{
    let peel = Peel::of(alloc, matrix)?;
    let margins = matrix.margins(alloc, table)?;
    let keys = keys_for(alloc, matrix, table)?;
    let key = keys.key(table);
    Ok(keys.table(alloc, matrix, &peel, margins.as_slice(), key)? == *table)
}

/// What a move adds to the key of a table and to its rank.
fn deltas(alloc: Global, matrix: &Matrix, table: &Table, z: &Move) -> Result<(u64, u64), Fail>
    requires table { length table.now ≡ length matrix.now.columns }
    requires one_move { length z.now ≡ length matrix.now.columns }
{
    let keys = keys_for(alloc, matrix, table)?;
    Ok((keys.delta(z), keys.rank_delta(z)))
}

/// Whether the key and the rank of the table that a move leads to, if it does, and of the way back
/// are those that the move's deltas give.
fn follows(alloc: Global, matrix: &Matrix, table: &Table, z: &Move) -> Result<bool, Fail>
    requires table { length table.now ≡ length matrix.now.columns }
    requires one_move { length z.now ≡ length matrix.now.columns }
{
    let mut next = table.try_copy()?;
    if !next.apply(z, Sign::Plus) {
        return Ok(true);
    }
    if next.len() != matrix.cols() {
        return Ok(false);
    }
    let from = key_and_rank(alloc, matrix, table)?;
    let to = key_and_rank(alloc, matrix, &next)?;
    let added = deltas(alloc, matrix, table, z)?;
    Ok(is_moved(from.0, added.0, to.0) && is_moved(from.1, added.1, to.1))
}

/// Whether a delta leads from one number to another, and back.
fn is_moved(from: u64, delta: u64, to: u64) -> bool {
    moved_key(from, delta, Sign::Plus) == to && moved_key(to, delta, Sign::Minus) == from
}

/// Whether keys and ranks follow all moves from a table.
fn follows_all(alloc: Global, matrix: &Matrix, table: &Table, moves: &Moves) -> Result<bool, Fail>
    requires { length table.now ≡ length matrix.now.columns }
{
    for z in moves.as_slice() {
        if z.len() != matrix.cols() || !follows(alloc, matrix, table, z)? {
            return Ok(false);
        }
    }
    Ok(true)
}

/// The key and the rank of each table, in words, if they follow the moves.
fn keys_of(alloc: Global, matrix: &Matrix, fiber: &Fiber) -> Result<String, Fail> {
    let mut text = format!(in alloc; "keys")?;
    let moves = moves_of(alloc, matrix.cols(), fiber.moves, 0)?;
    for line in fiber.tables.split('\n') {
        let table = table_of(alloc, line)?;
        let more = key_text(alloc, matrix, &table, &moves)?;
        text.push_str(more.as_str())?;
    }
    Ok(text)
}

/// The key and the rank of a table, in words, if it is read back and they follow the moves.
fn key_text(alloc: Global, matrix: &Matrix, table: &Table, moves: &Moves) -> Result<String, Fail> {
    if table.len() != matrix.cols() || !is_read_back(alloc, matrix, table)? {
        return Err(Fail::from("another table is read back"));
    }
    if !follows_all(alloc, matrix, table, moves)? {
        return Err(Fail::from("another key is moved to"));
    }
    let (key, rank) = key_and_rank(alloc, matrix, table)?;
    Ok(format!(in alloc; " {key}:{rank}")?)
}

/// Whether a fiber has the digits that are wanted.
fn has_digits(alloc: Global, matrix: &Matrix, fiber: &Fiber) -> Result<bool, Fail> {
    for line in fiber.tables.split('\n') {
        let table = table_of(alloc, line)?;
        if table.len() != matrix.cols() {
            return Ok(false);
        }
        let margins = matrix.margins(alloc, &table)?;
        if digits_of(alloc, matrix, margins.as_slice())?.as_str() != fiber.digits {
            return Ok(false);
        }
    }
    Ok(true)
}

/// Whether a fiber is as its case says.
fn is_right(alloc: Global, fiber: &Fiber) -> Result<bool, Fail> {
    let matrix = matrix_of(alloc, fiber.matrix)?;
    let peel = Peel::of(alloc, &matrix)?;
    let peel = text_of_peel(alloc, &peel)?;
    let keys = keys_of(alloc, &matrix, fiber)?;
    Ok(
        peel.as_str() == fiber.peel
            && keys.as_str() == fiber.keys
            && has_digits(alloc, &matrix, fiber)?,
    )
}

/// The first fiber that is otherwise.
fn first_wrong(alloc: Global, fibers: &[Fiber]) -> Result<Option<usize>, Fail> {
    for (k, fiber) in fibers.iter().enumerate() {
        if !is_right(alloc, fiber)? {
            return Ok(Some(k));
        }
    }
    Ok(None)
}

/// The fibers by hand: two genotype tables; a 2 x 3 table; one off the diagonal, where cells are
/// decided far from their free ones; three cells of which the total alone is fixed; and a 4 x 4
/// table, most bounds of which are 0.
const FIBERS: [Fiber; 5] = [
    Fiber {
        matrix: "2 3 2 1 0 0 1 2",
        peel: "peel 0 1:0 2:1",
        digits: "digits 0:2",
        tables: "1 3 0\n2 1 1",
        moves: "1 -2 1\n-1 2 -1\n0 0 0",
        keys: "keys 2:1 3:2",
    },
    Fiber {
        matrix: "5 6 1 1 1 0 0 0 0 0 0 1 1 1 1 0 0 1 0 0 0 1 0 0 1 0 0 0 1 0 0 1",
        peel: "peel 0 3:2 1 2:0 4:3 5:1",
        digits: "digits 0:1 1:2",
        tables: "0 1 1 1 1 0\n0 2 0 1 0 1\n1 0 1 0 2 0\n1 1 0 0 1 1",
        moves: "1 -1 0 -1 1 0\n1 0 -1 -1 0 1\n0 -1 1 0 1 -1",
        keys: "keys 3:1 5:2 2:3 4:4",
    },
    Fiber {
        matrix: "6 6 1 1 0 0 0 0 0 0 1 1 0 0 0 0 0 0 1 1 0 0 1 0 1 0 1 0 0 0 0 1 0 1 0 1 0 0",
        peel: "peel 0 1:0 5:4 4:2 2:3 3:1",
        digits: "digits 0:2",
        tables: "0 2 2 0 0 2\n1 1 1 1 1 1\n2 0 0 2 2 0",
        moves: "1 -1 -1 1 1 -1\n-2 2 2 -2 -2 2",
        keys: "keys 1:0 2:1 3:2",
    },
    Fiber {
        matrix: "1 3 1 1 1",
        peel: "peel 0 1 2:0",
        digits: "digits 0:2 1:2",
        tables: "0 0 2\n0 1 1\n0 2 0\n1 0 1\n1 1 0\n2 0 0",
        moves: "1 -1 0\n0 1 -1\n1 0 -1\n-2 1 1",
        keys: "keys 1:0 4:1 7:2 2:3 5:4 3:6",
    },
    Fiber {
        matrix: "8 16
1 1 1 1 0 0 0 0 0 0 0 0 0 0 0 0
0 0 0 0 1 1 1 1 0 0 0 0 0 0 0 0
0 0 0 0 0 0 0 0 1 1 1 1 0 0 0 0
0 0 0 0 0 0 0 0 0 0 0 0 1 1 1 1
1 0 0 0 1 0 0 0 1 0 0 0 1 0 0 0
0 1 0 0 0 1 0 0 0 1 0 0 0 1 0 0
0 0 1 0 0 0 1 0 0 0 1 0 0 0 1 0
0 0 0 1 0 0 0 1 0 0 0 1 0 0 0 1",
        peel: "peel 0 1 2 3:0 4 5 6 7:1 8 12:4 9 13:5 10 11:2 14:6 15:3",
        digits: "digits 0:1 1:1 2:0 4:1 5:1 6:0 8:0 9:0 10:0",
        tables: "0 1 0 0 1 0 0 0 0 0 0 0 0 0 0 0\n1 0 0 0 0 1 0 0 0 0 0 0 0 0 0 0",
        moves: "1 -1 0 0 -1 1 0 0 0 0 0 0 0 0 0 0",
        keys: "keys 7:6 10:9",
    },
];

#[test]
fn small_fibers(rt: HostRuntime) -> Result<(), Fail> {
    assert_eq!(rt; first_wrong(rt.alloc(), &FIBERS)?, None);
    Ok(())
}

/// Margins, and the digits of their keys.
#[derive(Clone, Copy)]
struct Margins {
    /// The text of the design matrix.
    matrix: &'static str,
    margins: &'static [u64],
    digits: &'static str,
}

/// The first margins whose digits are others.
fn first_other(alloc: Global, cases: &[Margins]) -> Result<Option<usize>, Fail> {
    for (k, case) in cases.iter().enumerate() {
        let matrix = matrix_of(alloc, case.matrix)?;
        if digits_of(alloc, &matrix, case.margins)?.as_str() != case.digits {
            return Ok(Some(k));
        }
    }
    Ok(None)
}

/// One pair of cells, two and three, each with a sum of its own.
const ONE_PAIR: &str = "1 2 1 1";

const TWO_PAIRS: &str = "2 4 1 1 0 0 0 0 1 1";

const THREE_PAIRS: &str = "3 6 1 1 0 0 0 0 0 0 1 1 0 0 0 0 0 0 1 1";

/// Margins by hand, whose keys number 2^64 - 1, 2^64, and others near that: (2^32 + 1) (2^32 - 1)
/// is 2^64 - 1.
const MARGINS: [Margins; 10] = [
    Margins {
        matrix: ONE_PAIR,
        margins: &[18_446_744_073_709_551_614],
        digits: "digits 0:18446744073709551614",
    },
    Margins {
        matrix: ONE_PAIR,
        margins: &[18_446_744_073_709_551_615],
        digits: "none",
    },
    Margins {
        matrix: "1 2 2 2",
        margins: &[18_446_744_073_709_551_615],
        digits: "digits 0:9223372036854775807",
    },
    Margins {
        matrix: TWO_PAIRS,
        margins: &[4_294_967_296, 4_294_967_294],
        digits: "digits 0:4294967296 2:4294967294",
    },
    Margins {
        matrix: TWO_PAIRS,
        margins: &[4_294_967_295, 4_294_967_295],
        digits: "none",
    },
    Margins {
        matrix: TWO_PAIRS,
        margins: &[4_294_967_295, 4_294_967_294],
        digits: "digits 0:4294967295 2:4294967294",
    },
    Margins {
        matrix: TWO_PAIRS,
        margins: &[0, 18_446_744_073_709_551_615],
        digits: "none",
    },
    Margins {
        matrix: TWO_PAIRS,
        margins: &[18_446_744_073_709_551_614, 0],
        digits: "digits 0:18446744073709551614 2:0",
    },
    Margins {
        matrix: THREE_PAIRS,
        margins: &[4_194_303, 2_097_151, 2_097_151],
        digits: "none",
    },
    Margins {
        matrix: THREE_PAIRS,
        margins: &[4_194_303, 2_097_151, 2_097_150],
        digits: "digits 0:4194303 2:2097151 4:2097150",
    },
];

#[test]
fn numbers_of_keys(rt: HostRuntime) -> Result<(), Fail> {
    assert_eq!(rt; first_other(rt.alloc(), &MARGINS)?, None);
    Ok(())
}
