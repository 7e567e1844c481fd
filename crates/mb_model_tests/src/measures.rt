//! Measures on design matrices.

use mb_matrix::{Matrix, Measure, MeasureFault, Scale};
use std::alloc::Global;
use std::test::Fail;

/// The rows and the entries of a design matrix, row by row.
#[derive(Clone, Copy)]
struct Design {
    rows: u32,
    entries: &'static [i32],
}

/// Independence in a 2 x 2 table: two rows of the first factor, and two of the second.
const INDEPENDENCE: Design = Design {
    rows: 4,
    entries: &[1, 1, 0, 0, 0, 0, 1, 1, 1, 0, 1, 0, 0, 1, 0, 1],
};

/// Three genotypes: the counts of two alleles.
const GENOTYPES: Design = Design {
    rows: 2,
    entries: &[2, 1, 0, 0, 1, 2],
};

/// The scale of these rows, or of all cells where there are none.
fn scale_of(alloc: Global, rows: &[u32]) -> Result<Scale, Fail> {
    if rows.is_empty() {
        return Ok(Scale::All);
    }
    Ok(Scale::Rows(Vec::from_slice(alloc, rows)?))
}

/// The design matrix with these rows and so many cells.
fn matrix_of(alloc: Global, design: Design, cols: u32) -> Result<Matrix, Fail> {
    if u64::from(design.rows) * u64::from(cols) != design.entries.len() as u64 {
        return Err(Fail::from("another number of entries"));
    }
    Ok(Matrix::try_new(alloc, design.rows, cols, design.entries)?)
}

/// The measure of a scale and base numbers on a design.
fn measure_of(
    alloc: Global,
    design: Design,
    scale: &[u32],
    base: &[u32],
) -> Result<Result<Measure, MeasureFault>, Fail> {
    let matrix = matrix_of(alloc, design, base.len().min(64) as u32)?;
    if matrix.cols() as usize != base.len() {
        return Err(Fail::from("another number of cells"));
    }
    Ok(Measure::try_new(alloc, &matrix, scale_of(alloc, scale)?, base))
}

/// Why a scale and base numbers are no measure, if they aren't.
fn fault_of(
    alloc: Global,
    design: Design,
    scale: &[u32],
    base: &[u32],
) -> Result<Option<MeasureFault>, Fail> {
    match measure_of(alloc, design, scale, base)? {
        Ok(_) => Ok(None),
        Err(fault) => Ok(Some(fault)),
    }
}

/// Whether the cells have these groups.
fn has_groups(alloc: Global, design: Design, scale: &[u32], groups: &[u64]) -> Result<bool, Fail> {
    let base = [1u32; 4];
    match measure_of(alloc, design, scale, &base[..groups.len().min(4)])? {
        Ok(measure) => Ok(measure.groups() == groups),
        Err(_) => Ok(false),
    }
}

/// One row, whose last entry differs.
const ONE_ROW: Design = Design {
    rows: 1,
    entries: &[1, 1, 2],
};

/// Scales and base numbers on designs, and what is wrong with them.
const MEASURES: [(Design, &[u32], &[u32], Option<MeasureFault>); 15] = [
    (INDEPENDENCE, &[1, 2], &[1, 1, 1, 1], None),
    (INDEPENDENCE, &[4, 3], &[1, 2, 3, 4_294_967_295], None),
    (INDEPENDENCE, &[], &[1, 1, 1, 1], None),
    (GENOTYPES, &[], &[1, 2, 1], None),
    (
        INDEPENDENCE,
        &[1, 0, 5],
        &[1, 0, 1, 1],
        Some(MeasureFault::BadScaleRow { row: 0 }),
    ),
    (
        INDEPENDENCE,
        &[1, 5, 0],
        &[1, 1, 1, 1],
        Some(MeasureFault::BadScaleRow { row: 5 }),
    ),
    (
        GENOTYPES,
        &[2],
        &[1, 1, 1],
        Some(MeasureFault::BadScaleRow { row: 2 }),
    ),
    (
        INDEPENDENCE,
        &[1],
        &[0, 1, 1, 1],
        Some(MeasureFault::ScaleNotCover { cell: 2 }),
    ),
    (
        INDEPENDENCE,
        &[2],
        &[1, 1, 1, 1],
        Some(MeasureFault::ScaleNotCover { cell: 0 }),
    ),
    (
        INDEPENDENCE,
        &[1, 3],
        &[1, 1, 1, 1],
        Some(MeasureFault::ScaleNotCover { cell: 0 }),
    ),
    (
        INDEPENDENCE,
        &[1, 4],
        &[1, 1, 1, 1],
        Some(MeasureFault::ScaleNotCover { cell: 1 }),
    ),
    (
        INDEPENDENCE,
        &[2, 1, 2],
        &[1, 1, 1, 1],
        Some(MeasureFault::ScaleNotCover { cell: 2 }),
    ),
    (
        ONE_ROW,
        &[],
        &[0, 1, 1],
        Some(MeasureFault::ScaleNotCover { cell: 2 }),
    ),
    (
        INDEPENDENCE,
        &[1, 2],
        &[1, 0, 1, 0],
        Some(MeasureFault::BadBase { cell: 1 }),
    ),
    (
        GENOTYPES,
        &[],
        &[1, 2, 0],
        Some(MeasureFault::BadBase { cell: 2 }),
    ),
];

// By hand: the first cause in the order of the refusals, rows from 1 and cells from 0.
#[test]
fn measures_in_order(rt: HostRuntime) -> Result<(), Fail> {
    for (design, scale, base, wanted) in MEASURES {
        assert!(rt; fault_of(rt.alloc(), design, scale, base)? == wanted);
    }
    Ok(())
}

/// A row of zeros and two that cover three cells.
const WITH_ZERO_ROW: Design = Design {
    rows: 3,
    entries: &[0, 0, 0, 1, 0, 1, 0, 1, 0],
};

/// The rows of the first factor alone.
const FIRST_FACTOR: Design = Design {
    rows: 2,
    entries: &[1, 1, 0, 0, 0, 0, 1, 1],
};

/// Scales on designs, and the groups of the cells.
const GROUPS: [(Design, &[u32], &[u64]); 6] = [
    (INDEPENDENCE, &[], &[0, 0, 0, 0]),
    (INDEPENDENCE, &[1, 2], &[0, 0, 1, 1]),
    (INDEPENDENCE, &[2, 1], &[1, 1, 0, 0]),
    (INDEPENDENCE, &[3, 4], &[0, 1, 0, 1]),
    (WITH_ZERO_ROW, &[1, 2, 1, 3], &[1, 3, 1]),
    (FIRST_FACTOR, &[2, 1], &[1, 1, 0, 0]),
];

// By hand: the place of a cell's row among the named ones. A row of zeros takes a number too.
#[test]
fn groups_of_cells(rt: HostRuntime) -> Result<(), Fail> {
    for (design, scale, groups) in GROUPS {
        assert!(rt; has_groups(rt.alloc(), design, scale, groups)?);
    }
    Ok(())
}
