//! Design matrices.

ghost use Rattle.std.specs.Prelude.{◌≡◌, IfOk, length};

use mb_matrix::{Matrix, MatrixFault};
use mb_tables::{Move, Table};
use std::alloc::Global;
use std::test::Fail;

/// Why these numbers are no design matrix, if they aren't.
fn fault_of(
    alloc: Global,
    rows: u32,
    cols: u32,
    entries: &[i32],
) -> Result<Option<MatrixFault>, Fail> {
    if u64::from(rows) * u64::from(cols) != entries.len() as u64 {
        return Err(Fail::from("another number of entries"));
    }
    match Matrix::try_new(alloc, rows, cols, entries) {
        Ok(_) => Ok(None),
        Err(fault) => Ok(Some(fault)),
    }
}

// By hand: the first cause in the order of the refusals, rows and cells from 0.
#[test]
fn refusals_in_order(rt: HostRuntime) -> Result<(), Fail> {
    let cases: [(u32, u32, &[i32], Option<MatrixFault>); 11] = [
        (2, 2, &[1, 0, 0, 1], None),
        (1, 2, &[0, 1000], Some(MatrixFault::ZeroColumn { cell: 0 })),
        (2, 2, &[0, 1000, 1, 0], None),
        (0, 0, &[], Some(MatrixFault::TooManyCells)),
        (5, 0, &[], Some(MatrixFault::TooManyCells)),
        (1, 65, &[-1; 65], Some(MatrixFault::TooManyCells)),
        (0, 5, &[], Some(MatrixFault::TooManyMargins)),
        (65, 1, &[-1; 65], Some(MatrixFault::TooManyMargins)),
        (
            2,
            2,
            &[1001, 0, 1, -1],
            Some(MatrixFault::Negative { row: 1, cell: 1 }),
        ),
        (
            2,
            2,
            &[0, 1, 0, 1001],
            Some(MatrixFault::EntryTooLarge { row: 1, cell: 1 }),
        ),
        (
            2,
            3,
            &[1, 0, 0, 1, 0, 0],
            Some(MatrixFault::ZeroColumn { cell: 1 }),
        ),
    ];
    for (rows, cols, entries, wanted) in cases {
        assert!(rt; fault_of(rt.alloc(), rows, cols, entries)? == wanted);
    }
    Ok(())
}

/// The design matrix of the rows 2 1 0 and 0 1 2.
fn design(alloc: Global) -> Result<Matrix, MatrixFault> {
    Matrix::try_new(alloc, 2, 3, &[2, 1, 0, 0, 1, 2])
}

/// The table of these counts, if it has the cells of the matrix.
fn table(alloc: Global, matrix: &Matrix, counts: &[u32]) -> Result<Table, Fail>
    ensures { IfOk result (λ t. length t ≡ length matrix.now.columns) }
{
    let table = Table::try_new(alloc, counts)?;
    if table.len() != matrix.cols() {
        return Err(Fail::from("another number of cells"));
    }
    Ok(table)
}

/// Whether a table has these margins, one by one and together.
fn has_margins(alloc: Global, counts: &[u32], wanted: [u64; 2]) -> Result<bool, Fail> {
    let matrix = design(alloc)?;
    let table = table(alloc, &matrix, counts)?;
    let margins = matrix.margins(alloc, &table)?;
    if matrix.rows() != 2 {
        return Ok(false);
    }
    Ok(
        margins.as_slice() == wanted.as_slice()
            && matrix.margin(0, &table) == wanted[0]
            && matrix.margin(1, &table) == wanted[1],
    )
}

/// Whether two tables have the same margins.
fn are_alike(alloc: Global, a: &[u32], b: &[u32]) -> Result<bool, Fail> {
    let matrix = design(alloc)?;
    let (a, b) = (table(alloc, &matrix, a)?, table(alloc, &matrix, b)?);
    Ok(matrix.same_margins(&a, &b))
}

/// Whether these are the entries of a move of the matrix.
fn is_move(alloc: Global, entries: &[i32]) -> Result<bool, Fail> {
    let matrix = design(alloc)?;
    let z = Move::try_new(alloc, entries)?;
    Ok(z.len() == matrix.cols() && matrix.is_move(&z))
}

/// Whether the matrix has its entries.
fn are_entries_kept(alloc: Global) -> Result<bool, Fail> {
    let matrix = design(alloc)?;
    if matrix.rows() != 2 || matrix.cols() != 3 {
        return Ok(false);
    }
    Ok(matrix.entry(0, 0) == 2 && matrix.entry(1, 0) == 0 && matrix.entry(1, 2) == 2)
}

// By hand, under the rows 2 1 0 and 0 1 2: margins 2 2 of 1 0 1, and of 0 2 0.
#[test]
fn margins(rt: HostRuntime) -> Result<(), Fail> {
    let alloc = rt.alloc();
    assert!(rt; has_margins(alloc, &[1, 0, 1], [2, 2])?);
    assert!(rt; has_margins(alloc, &[2, 0, 0], [4, 0])?);
    assert!(rt; are_alike(alloc, &[1, 0, 1], &[0, 2, 0])?);
    assert!(rt; !are_alike(alloc, &[1, 0, 1], &[2, 0, 0])?);
    assert!(rt; is_move(alloc, &[-1, 2, -1])? && !is_move(alloc, &[1, -2, 0])?);
    assert!(rt; are_entries_kept(alloc)?);
    Ok(())
}
