//! A log-linear model.

ghost use Rattle.std.specs.Prelude.{◌≡◌};
ghost use Rattle.mb_matrix.specs.Measure.{IsMeasureOf};
ghost use Rattle.mb_kinds.specs.Model.{IsModel};

use mb_matrix::{Matrix, Measure};
use std::marker;

/// A log-linear model, seen as its design matrix and its measure: one that `Measure::try_new` gives
/// for this matrix, so that its groups are its scale's rows.
#[derive(Drop)]
pub struct Model {
    matrix: Matrix,
    measure: Measure,
}

impl marker::Model for Model {
    ghost use Rattle.mb_kinds.specs.Model.{IsModel, ModelValue};

    ghost Value = { ModelValue };

    ghost view = { λ m. record { matrix = m.matrix; measure = m.measure } };

    ghost invariant = { λ m. IsModel (record { matrix = m.matrix; measure = m.measure }) };
}

impl Model {
    /// The model of a design matrix and a measure on it.
    pub fn new(matrix: Matrix, measure: Measure) -> Model
        requires { IsMeasureOf matrix measure }
        ensures { result ≡ record { matrix = matrix; measure = measure } }
    {
        let _sound = matrix.rows();
        Model { matrix, measure }
    }

    /// The design matrix.
    pub fn matrix(&self) -> &Matrix
        ensures matrix { result.now ≡ self.now.matrix }
        ensures sound { IsModel self.now }
    {
        &self.matrix
    }

    /// The scale and the base measure.
    pub fn measure(&self) -> &Measure
        ensures measure { result.now ≡ self.now.measure }
        ensures sound { IsModel self.now }
    {
        &self.measure
    }
}
