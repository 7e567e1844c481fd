//! The rules that a run begins with.

ghost use Rattle.std.specs.Prelude.{◌≡◌, ◌<◌, IfOk, length};
ghost use Rattle.mb_completion.specs.Start.{birth_of, births_of};
ghost use Rattle.mb_matrix.specs.Matrix.{column_at};
ghost use Rattle.mb_rules.specs.Sides.{RuleSuits, sides};

use mb_matrix::Matrix;
use mb_order::{Monomial, Order, column_of, unit_of, zeros_of};
use mb_rules::{Rule, Rules};
use mb_tables::OutOfMemory;
use std::alloc::Global;

/// The rule from the margins' symbols of a column to its cell's symbol.
pub fn birth(alloc: Global, matrix: &Matrix, cell: u32) -> Result<Rule, OutOfMemory>
    requires { cell < length matrix.now.columns }
    ensures sides { IfOk result (λ r. sides r ≡ birth_of matrix.now.rows
        (length matrix.now.columns) cell (column_at matrix.now cell)) }
    ensures shape { IfOk result (RuleSuits matrix.now) }
{
    let cells = matrix.cols() as usize;
    let column = column_of(alloc, matrix, cell)?;
    let no_cells = zeros_of(alloc, cells)?;
    let no_margins = zeros_of(alloc, matrix.rows() as usize)?;
    let one_cell = unit_of(alloc, cells, cell as usize)?;
    Ok(Rule {
        left: Monomial::try_new(alloc, column.as_slice(), no_cells.as_slice())?,
        right: Monomial::try_new(alloc, no_margins.as_slice(), one_cell.as_slice())?,
    })
}

/// The rules that a run begins with, one for each column.
pub fn first_rules(alloc: Global, matrix: &Matrix, order: Order) -> Result<Rules, OutOfMemory>
    ensures matrix { IfOk result (λ l. l.matrix ≡ matrix.now) }
    ensures order { IfOk result (λ l. l.order ≡ order) }
    ensures rules { IfOk result (λ l. l.rules ≡ births_of matrix.now) }
{
    let mut rules = Rules::new(alloc, matrix, order)?;
    for cell in 0..matrix.cols() {
        rules.push(birth(alloc, matrix, cell)?)?;
    }
    Ok(rules)
}
