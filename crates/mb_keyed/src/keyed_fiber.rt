//! A fiber by its keys: tables are read back from them.

use mb_matrix::{Keys, Matrix, Peel};
use mb_tables::{OutOfMemory, Table};
use std::alloc::Global;
use std::marker::Model;

/// The fiber of a start, and what its tables are read back from their keys with.
///
/// It is seen as its matrix and its margins; the keys are those of both.
#[derive(Drop)]
pub struct KeyedFiber<'a> {
    matrix: &'a Matrix,
    peel: Peel,
    margins: Vec<u64>,
    keys: &'a Keys,
}

impl<'a> Model for KeyedFiber<'a> {
    ghost use Rattle.mb_keyed.specs.loops.Keyed.{FiberAt, IsKept};

    ghost Value = { FiberAt };

    ghost view = { λ f. record { matrix = f.matrix.now; margins = f.margins.items } };

    ghost invariant = { λ f. IsKept f.matrix.now f.peel f.margins.items f.keys.now };
}

impl<'a> KeyedFiber<'a> {
    ghost use Rattle.std.specs.Prelude.{◌≡◌, IfOk, length};
    ghost use Rattle.mb_keyed.specs.loops.Keyed.{IsOfFiber, digits_in, fiber_at};
    ghost use Rattle.mb_matrix.specs.Key.{digits_of, key_of};
    ghost use Rattle.mb_matrix.specs.Matrix.{IsDesign, margins_of};
    ghost use Rattle.mb_rings.specs.Claimed.{IsKeyOf};

    /// The fiber of a start, with the keys of its margins.
    pub fn of(
        alloc: Global,
        matrix: &'a Matrix,
        start: &Table,
        keys: &'a Keys,
    ) -> Result<KeyedFiber<'a>, OutOfMemory>
        requires cells { length start.now ≡ length matrix.now.columns }
        requires keys { keys.now ≡ digits_of matrix.now (margins_of matrix.now start.now) }
        ensures { IfOk result (λ fiber. fiber ≡ fiber_at matrix.now start.now) }
    {
        let peel = Peel::of(alloc, matrix)?;
        let margins = matrix.margins(alloc, start)?;
        Ok(KeyedFiber {
            matrix,
            peel,
            margins,
            keys,
        })
    }

    /// The keys of its tables.
    pub fn keys(&self) -> &Keys
        ensures keys { result.now ≡ digits_in self.now }
        ensures sound { IsDesign self.now.matrix }
    {
        let _cells = self.matrix.cols();
        self.keys
    }

    /// The table of the fiber with a key.
    pub fn table(&self, alloc: Global, key: u64) -> Result<Table, OutOfMemory>
        requires { IsKeyOf (digits_in self.now) (IsOfFiber self.now) key }
        ensures key { IfOk result (λ table. key_of (digits_in self.now) table ≡ key) }
        ensures fiber { IfOk result (IsOfFiber self.now) }
    {
        self.keys.table(alloc, self.matrix, &self.peel, self.margins.as_slice(), key)
    }
}
