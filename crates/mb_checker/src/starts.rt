//! The lines of starts.

ghost use Rattle.std.specs.Prelude.{◌≡◌, ◌<◌, ◌≤◌, ◌+◌, ◌^◌, IfOk, length};
ghost use Rattle.mb_certificate.specs.FirstFault.{first_from, start_fault, start_lines};
ghost use Rattle.mb_certificate.specs.Valid.{AreRules, of_cell, of_column};
ghost use Rattle.mb_checker.specs.Finds.{Finds};
ghost use Rattle.mb_matrix.specs.Matrix.{column_at};
ghost use Rattle.mb_order.specs.Weight.{Suits};

use crate::stop::Stop;
use crate::traces::ends_fault;
use mb_certificate::{Certificate, Fault, Reason, Start};
use mb_matrix::Matrix;
use mb_order::{Monomial, column_of, unit_of, zeros_of};
use mb_tables::OutOfMemory;
use std::alloc::Global;

/// The monomial of the margins' symbols of a column.
fn of_column(alloc: Global, matrix: &Matrix, cell: u32) -> Result<Monomial, OutOfMemory>
    requires { cell < length matrix.now.columns }
    ensures list { IfOk result (λ m.
        m.list ≡ of_column (length matrix.now.columns) (column_at matrix.now cell)) }
    ensures shape { IfOk result (Suits matrix.now) }
{
    let entries = column_of(alloc, matrix, cell)?;
    let cells = zeros_of(alloc, matrix.cols() as usize)?;
    Ok(Monomial::try_new(alloc, entries.as_slice(), cells.as_slice())?)
}

/// The monomial of the symbol of a cell.
fn of_cell(alloc: Global, matrix: &Matrix, cell: u32) -> Result<Monomial, OutOfMemory>
    requires { cell < length matrix.now.columns }
    ensures list { IfOk result (λ m. m.list ≡ of_cell matrix.now cell) }
    ensures shape { IfOk result (Suits matrix.now) }
{
    let margins = zeros_of(alloc, matrix.rows() as usize)?;
    let cells = unit_of(alloc, matrix.cols() as usize, cell as usize)?;
    Ok(Monomial::try_new(alloc, margins.as_slice(), cells.as_slice())?)
}

/// What is wrong with the start of a cell.
fn start_fault(
    alloc: Global,
    certificate: &Certificate,
    cell: u32,
    start: &Start,
) -> Result<Option<Reason>, OutOfMemory>
    requires cell { cell < length certificate.now.matrix.columns }
    requires valid { AreRules certificate.now.matrix certificate.now.order certificate.now.rules }
    ensures { IfOk result (λ fault. fault
        ≡ start_fault certificate.now.matrix certificate.now.rules cell start.now) }
{
    let mut first = of_column(alloc, certificate.matrix(), cell)?;
    let mut second = of_cell(alloc, certificate.matrix(), cell)?;
    Ok(ends_fault(
        certificate,
        start.margin_steps.as_slice(),
        &mut first,
        start.cell_steps.as_slice(),
        &mut second,
        Reason::StartNotJoined,
    ))
}

/// Stops at the first wrong start. The first of them stands in this line.
pub fn check_starts(alloc: Global, certificate: &Certificate, line: u64) -> Result<(), Stop>
    requires line { line ≤ 2 ^ 60 }
    requires valid { AreRules certificate.now.matrix certificate.now.order certificate.now.rules }
    ensures { Finds result (first_from line (start_lines certificate.now)) }
{
    for (k, start) in certificate.starts().iter().enumerate() {
        if let Some(reason) = start_fault(alloc, certificate, k as u32, start)? {
            let line = line + k as u64;
            return Err(Stop::Wrong(Fault { line, reason }));
        }
    }
    Ok(())
}
