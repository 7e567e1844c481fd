//! Models from the rows of a matrix.

ghost use Rattle.std.specs.Prelude.{◌≡◌, ◌*◌, None, length, option_map};
ghost use Rattle.mb_kinds.specs.Generators.{base_for, model_on};
ghost use Rattle.mb_kinds.specs.ModelText.{kind_cause};
ghost use Rattle.mb_kinds.specs.declared.kind_fault.KindFault.TheVariants as Fault;
ghost use Rattle.mb_matrix.specs.Faults.{matrix_cause};
ghost use Rattle.mb_matrix.specs.Measure.{measure_cause};
ghost use Rattle.mb_matrix.specs.Scheme.{scheme_of};
ghost use Rattle.mb_tables.specs.Answers.{Gives};
ghost use Rattle.mb_tables.specs.Rows.{array_of};

use crate::kind_fault::KindFault;
use crate::model::Model;
use mb_matrix::{Matrix, MatrixFault, Measure, MeasureFault, Scale};
use std::alloc::Global;

/// A fault of the matrix, as one of the model.
fn of_matrix(fault: MatrixFault) -> KindFault
    ensures { kind_cause result ≡ option_map Fault.Matrix (matrix_cause fault) }
{
    match fault {
        MatrixFault::OutOfMemory => KindFault::OutOfMemory,
        _ => KindFault::Matrix(fault),
    }
}

/// A fault of the measure, as one of the model.
fn of_measure(fault: MeasureFault) -> KindFault
    ensures { kind_cause result ≡ option_map Fault.Measure (measure_cause fault) }
{
    match fault {
        MeasureFault::OutOfMemory => KindFault::OutOfMemory,
        _ => KindFault::Measure(fault),
    }
}

/// The model of the rows of a matrix, a scale and base numbers.
pub(crate) fn model_on(
    alloc: Global,
    rows: u32,
    cells: u32,
    entries: &[i32],
    scale: Scale,
    base: &[u32],
) -> Result<Model, KindFault>
    requires entries { length entries.now ≡ rows * cells }
    requires base { length base.now ≡ cells }
    ensures { Gives kind_cause (λ m. m) result
        (model_on (array_of cells rows entries.now) (scheme_of scale) base.now) }
{
    let matrix = match Matrix::try_new(alloc, rows, cells, entries) {
        Ok(matrix) => matrix,
        Err(fault) => return Err(of_matrix(fault)),
    };
    let measure = match Measure::try_new(alloc, &matrix, scale, base) {
        Ok(measure) => measure,
        Err(fault) => return Err(of_measure(fault)),
    };
    Ok(Model::new(matrix, measure))
}

/// The base numbers of so many cells: those that are given, or ones.
pub(crate) fn base_for(
    alloc: Global,
    cells: u32,
    given: Option<Vec<u32>>,
) -> Result<Vec<u32>, KindFault>
    ensures { Gives kind_cause (λ v. v.items) result
        (base_for cells (option_map (λ v. v.items) given)) }
{
    match given {
        Some(base) => {
            if base.len() != cells as usize {
                return Err(KindFault::CellCount {
                    matrix: base.len() as u64,
                    cells,
                });
            }
            Ok(base)
        }
        None => ones(alloc, cells),
    }
}

/// So many ones.
fn ones(alloc: Global, cells: u32) -> Result<Vec<u32>, KindFault>
    ensures { Gives kind_cause (λ v. v.items) result (base_for cells None) }
{
    let mut base = Vec::new(alloc);
    for _ in 0..cells {
        base.push(1)?;
    }
    Ok(base)
}
