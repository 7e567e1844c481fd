//! Matrices, certificates and tables of texts, and what calls require of tables and moves.

ghost use Rattle.std.specs.Prelude.{◌≡◌, ◌<◌, ◌^◌, All, IfOk, length};
ghost use Rattle.std.specs.Bool.{OnTrue};
ghost use Rattle.mb_matrix.specs.Matrix.{IsMove, margins_of};

use mb_certificate::Certificate;
use mb_completion::{complete, make};
use mb_matrix::Matrix;
use mb_moves::read_matrix;
use mb_order::Order;
use mb_tables::{Moves, Table};
use std::alloc::Global;
use std::test::Fail;

/// The independence of two factors of four levels.
pub const FOUR_BY_FOUR: &str = "8 16
1 1 1 1 0 0 0 0 0 0 0 0 0 0 0 0
0 0 0 0 1 1 1 1 0 0 0 0 0 0 0 0
0 0 0 0 0 0 0 0 1 1 1 1 0 0 0 0
0 0 0 0 0 0 0 0 0 0 0 0 1 1 1 1
1 0 0 0 1 0 0 0 1 0 0 0 1 0 0 0
0 1 0 0 0 1 0 0 0 1 0 0 0 1 0 0
0 0 1 0 0 0 1 0 0 0 1 0 0 0 1 0
0 0 0 1 0 0 0 1 0 0 0 1 0 0 0 1";

/// The design matrix of a text.
pub fn matrix_of(alloc: Global, text: &str) -> Result<Matrix, Fail> {
    let Ok(grid) = read_matrix(alloc, text.as_bytes()) else {
        return Err(Fail::from("no matrix"));
    };
    let entries = grid.entries.as_slice();
    match Matrix::try_new(alloc, grid.rows, grid.cols, entries) {
        Ok(matrix) => Ok(matrix),
        Err(_) => Err(Fail::from("no design matrix")),
    }
}

/// The certificate of a matrix, completed by an order.
pub fn certificate_of(alloc: Global, matrix: &Matrix, order: Order) -> Result<Certificate, Fail>
    ensures { IfOk result (λ c. c.matrix ≡ matrix.now) }
{
    let Ok(completed) = complete(alloc, matrix, order, 1_000_000) else {
        return Err(Fail::from("not completed"));
    };
    match make(alloc, matrix, &completed) {
        Ok(certificate) => Ok(certificate),
        Err(_) => Err(Fail::from("no memory")),
    }
}

/// The counts of a text; an empty one has none.
pub fn counts_of(alloc: Global, text: &str) -> Result<Vec<u32>, Fail> {
    let mut counts = Vec::new(alloc);
    if text.is_empty() {
        return Ok(counts);
    }
    for word in text.split(' ') {
        counts.push(word.parse::<u32>()?)?;
    }
    Ok(counts)
}

/// The table of a text.
pub fn table_of(alloc: Global, text: &str) -> Result<Table, Fail> {
    let counts = counts_of(alloc, text)?;
    Ok(Table::try_new(alloc, counts.as_slice())?)
}

/// Whether each margin of a table fits 32 bits.
pub fn has_small_margins(alloc: Global, matrix: &Matrix, table: &Table) -> bool
    requires { length table.now ≡ length matrix.now.columns }
    ensures { OnTrue result (All (λ margin. margin < 2 ^ 32) (margins_of matrix.now table.now)) }
{
    match matrix.margins(alloc, table) {
        Ok(margins) => margins.iter().all(|margin| *margin < 4_294_967_296),
        Err(_) => false,
    }
}

/// Whether all margins of all moves are 0.
pub fn are_moves(matrix: &Matrix, moves: &Moves) -> bool
    requires { moves.now.width ≡ length matrix.now.columns }
    ensures { OnTrue result (All (IsMove matrix.now) moves.now.rows) }
{
    let _moves = moves.len();
    for (_k, z) in moves.as_slice().iter().enumerate() {
        if !matrix.is_move(z) {
            return false;
        }
    }
    true
}
