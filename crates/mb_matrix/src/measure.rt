//! The measure of a model on its design matrix.

ghost use Rattle.std.specs.List.{position, position_or_len};
ghost use Rattle.std.specs.Prelude.{◌≡◌, ◌==◌, ◌<◌, ◌≤◌, All, IfNone, IfOk, IfSome, Some, length, slice_get};
ghost use Rattle.mb_matrix.specs.Measure.{group_at, groups_of, has_cell};
ghost use Rattle.mb_matrix.specs.Scheme.{scheme_of};
ghost use Rattle.mb_tables.specs.Answers.{Gives};

use crate::matrix::Matrix;
use crate::measure_fault::MeasureFault;
use crate::scale::Scale;
use crate::scale_tests::{has_cell, scale_fault};
use std::alloc::{AllocError, Global};
use std::marker::Model;

/// A scale and a base measure, seen as the sampling scheme, the group of each cell and the base
/// number of each cell: 1 to 64 cells, each base number 1 or more.
#[derive(Drop)]
pub struct Measure {
    scale: Scale,
    groups: Vec<u64>,
    bases: Vec<u32>,
}

impl Model for Measure {
    ghost use Rattle.mb_matrix.specs.Measure.{AreWeights, Weighting};
    ghost use Rattle.mb_matrix.specs.Scheme.{scheme_of};

    ghost Value = { Weighting };

    ghost view = { λ m. record {
      scale = scheme_of m.scale;
      groups = m.groups.items;
      bases = m.bases.items;
    } };

    ghost invariant = { λ m. AreWeights m.groups.items m.bases.items };
}

/// The place of the first of these rows that has a 1 at a cell.
fn group_in(matrix: &Matrix, rows: &[u32], cell: u32) -> u64
    requires { cell < length matrix.now.columns }
    ensures { result ≡ position_or_len (has_cell matrix.now cell) rows.now }
{
    for (place, n) in rows.iter().enumerate() {
        if has_cell(matrix, *n, cell) {
            return place as u64;
        }
    }
    rows.len() as u64
}

/// The group of a cell in a scale.
fn group_of(matrix: &Matrix, scale: &Scale, cell: u32) -> u64
    requires { cell < length matrix.now.columns }
    ensures { result ≡ group_at matrix.now (scheme_of scale.now) cell }
{
    match scale {
        Scale::All => 0,
        Scale::Rows(rows) => group_in(matrix, rows.as_slice(), cell),
    }
}

/// The group of each cell.
fn groups_of(alloc: Global, matrix: &Matrix, scale: &Scale) -> Result<Vec<u64>, AllocError>
    ensures { IfOk result (λ groups. groups.items ≡ groups_of matrix.now (scheme_of scale.now)) }
{
    let mut groups = Vec::new(alloc);
    for cell in 0..matrix.cols() {
        groups.push(group_of(matrix, scale, cell))?;
    }
    Ok(groups)
}

/// The lowest cell whose base number is 0.
fn first_zero(base: &[u32]) -> Option<usize>
    ensures first { result ≡ position (λ number. number == 0) base.now }
    ensures within { IfSome result (λ cell. cell < length base.now) }
    ensures none { IfNone result (All (λ number. 1 ≤ number) base.now) }
{
    base.iter().position(|number| *number == 0)
}

impl Measure {
    ghost use Rattle.mb_matrix.specs.Measure.{AreWeights, IsMeasureOf, measure_cause, measure_of};

    /// The measure of a scale and base numbers, one a cell, on a design matrix.
    ///
    /// Refused are, in this order: the first number in the scale that is no row of zeros and ones;
    /// the lowest cell that isn't in exactly one of the named rows, a row named twice counting
    /// twice, or for the scale of all cells the lowest whose column adds up to another sum than
    /// that of cell 0; and the lowest cell whose base number is 0. Want of memory can come in place
    /// of any answer.
    pub fn try_new(
        alloc: Global,
        matrix: &Matrix,
        scale: Scale,
        base: &[u32],
    ) -> Result<Measure, MeasureFault>
        requires { length base.now ≡ length matrix.now.columns }
        ensures exact { Gives measure_cause (λ m. m) result
            (measure_of matrix.now (scheme_of scale) base.now) }
        ensures sound { IfOk result (IsMeasureOf matrix.now) }
    {
        let _few = matrix.cols();
        if let Some(fault) = scale_fault(matrix, &scale) {
            return Err(fault);
        }
        if let Some(cell) = first_zero(base) {
            return Err(MeasureFault::BadBase { cell: cell as u32 });
        }
        let groups = groups_of(alloc, matrix, &scale)?;
        let bases = Vec::from_slice(alloc, base)?;
        Ok(Measure {
            scale,
            groups,
            bases,
        })
    }

    /// The number of cells, 1 to 64.
    pub fn cells(&self) -> u32
        ensures cells { result ≡ length self.now.bases }
        ensures sound { AreWeights self.now.groups self.now.bases }
    {
        self.bases.len() as u32
    }

    /// The group of a cell. Groups count from 0 in the order of the rows that the scale names, and
    /// cells from 0.
    pub fn group(&self, cell: u32) -> u64
        requires { cell < length self.now.groups }
        ensures { slice_get self.now.groups cell ≡ Some result }
    {
        self.groups[cell as usize]
    }

    /// The base number of a cell, 1 or more. Cells count from 0.
    pub fn base(&self, cell: u32) -> u32
        requires { cell < length self.now.bases }
        ensures { slice_get self.now.bases cell ≡ Some result }
    {
        self.bases[cell as usize]
    }

    /// The groups of all cells.
    pub fn groups(&self) -> &[u64]
        ensures groups { result.now ≡ self.now.groups }
        ensures sound { AreWeights self.now.groups self.now.bases }
    {
        self.groups.as_slice()
    }

    /// The base numbers of all cells.
    pub fn bases(&self) -> &[u32]
        ensures bases { result.now ≡ self.now.bases }
        ensures sound { AreWeights self.now.groups self.now.bases }
    {
        self.bases.as_slice()
    }

    /// The scale that the measure was made with.
    pub fn scale(&self) -> &Scale
        ensures { scheme_of result.now ≡ self.now.scale }
    {
        &self.scale
    }
}
