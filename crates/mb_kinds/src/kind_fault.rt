//! Why a text is no model of a dataset.

use mb_matrix::{MatrixFault, MeasureFault};
use mb_moves::GridFault;
use mb_tables::OutOfMemory;
use std::alloc::{AllocError, AllocFailed};

/// A key of a model file, or its matrix file, in the order in which they are asked for.
#[derive(Clone, Copy, Debug, PartialEq, Eq)]
pub enum ModelKey {
    Kind,
    Generators,
    Person,
    Item,
    Response,
    Classes,
    Matrix,
    Scale,
    Base,
}

/// The first fault of a model file on a dataset, in the order of these variants, or want of
/// memory.
#[derive(Clone, Copy, Debug, PartialEq, Eq)]
pub enum KindFault {
    /// The bytes are no TOML document.
    Toml,
    /// No kind of model has this name.
    UnknownKind,
    /// The first key, in the order of `ModelKey`, that the kind needs and that isn't there, or that
    /// the kind reads and that is of another type or range.
    MissingKey { key: ModelKey },
    /// A named factor isn't in the dataset.
    UnknownFactor,
    /// The list of generators is empty.
    EmptyGenerators,
    /// Quasi-independence is of two factors, and the dataset hasn't two.
    NotTwoFactors,
    /// The response isn't binary, or the three named factors aren't three.
    NotBinary,
    /// The matrix file is no matrix.
    MatrixText(GridFault),
    /// The dataset has `cells` cells, and the matrix file has as many columns as `matrix` says, or,
    /// where its columns are right, the base has so many numbers.
    CellCount { matrix: u64, cells: u32 },
    /// The rows are no design matrix.
    Matrix(MatrixFault),
    /// The scale or the base isn't one of the design matrix.
    Measure(MeasureFault),
    /// Out of memory.
    OutOfMemory,
}

impl From<AllocError> for KindFault {
    ghost use Rattle.std.specs.Prelude.{◌≡◌};
    ghost use Rattle.mb_kinds.specs.declared.kind_fault.KindFault.TheVariants.{OutOfMemory};

    ghost from_gives = { λ _ e. e ≡ OutOfMemory };

    fn from(_e: AllocError) -> KindFault {
        KindFault::OutOfMemory
    }
}

impl<T: Drop> From<AllocFailed<T>> for KindFault {
    ghost use Rattle.std.specs.Prelude.{◌≡◌};
    ghost use Rattle.mb_kinds.specs.declared.kind_fault.KindFault.TheVariants.{OutOfMemory};

    ghost from_gives = { λ _ e. e ≡ OutOfMemory };

    fn from(_e: AllocFailed<T>) -> KindFault {
        KindFault::OutOfMemory
    }
}

impl From<OutOfMemory> for KindFault {
    ghost use Rattle.std.specs.Prelude.{◌≡◌};
    ghost use Rattle.mb_kinds.specs.declared.kind_fault.KindFault.TheVariants.{OutOfMemory};

    ghost from_gives = { λ _ e. e ≡ OutOfMemory };

    fn from(_e: OutOfMemory) -> KindFault {
        KindFault::OutOfMemory
    }
}
