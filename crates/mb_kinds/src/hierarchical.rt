//! Hierarchical models, and the kinds that are some: quasi-independence and Rasch.

ghost use Rattle.std.specs.Prelude.{◌≡◌, ◌≤◌, ◌∷◌, [], IfOk, length, option_map};
ghost use Rattle.std.specs.List.{range_with_len};
ghost use Rattle.mb_kinds.specs.Generators.{margins_model};
ghost use Rattle.mb_kinds.specs.Kinds.{hierarchical, named_model, quasi_independence};
ghost use Rattle.mb_kinds.specs.ModelText.{kind_cause};
ghost use Rattle.mb_kinds.specs.loops.Placed.{ArePlaced};
ghost use Rattle.mb_tables.specs.Answers.{Gives};
ghost use Rattle.toml.specs.View.{table_view};

use crate::building::{base_for, model_on};
use crate::generator::{Generator, all_factors, generators_named};
use crate::kind_fault::KindFault;
use crate::margins::{all_rows, margin_size};
use crate::model::Model;
use crate::model_text::{ModelText, base_at, generators_at};
use crate::names::Names;
use mb_data::Dataset;
use mb_matrix::{MatrixFault, Scale};
use mb_tables::OutOfMemory;
use std::alloc::Global;

/// The numbers of the first rows.
fn first_rows(alloc: Global, rows: u32) -> Result<Vec<u32>, OutOfMemory>
    ensures { IfOk result (λ v. v.items ≡ range_with_len 1 rows) }
{
    let mut numbers = Vec::new(alloc);
    for k in 0..rows {
        numbers.push(k + 1)?;
    }
    Ok(numbers)
}

/// The hierarchical model of generators, each the places of its factors.
pub(crate) fn margins_model(
    alloc: Global,
    dataset: &Dataset,
    generators: &[Generator],
    given: Option<Vec<u32>>,
) -> Result<Model, KindFault>
    requires placed { ArePlaced dataset.now generators.now }
    requires some { 1 ≤ length generators.now }
    ensures { Gives kind_cause (λ m. m) result
        (margins_model dataset.now generators.now (option_map (λ v. v.items) given)) }
{
    let cells = dataset.cell_combinations(alloc)?;
    let count = dataset.cells();
    let base = base_for(alloc, count, given)?;
    let Some((rows, entries)) = all_rows(alloc, dataset, cells.as_slice(), generators)? else {
        return Err(KindFault::Matrix(MatrixFault::TooManyMargins));
    };
    let Some(first) = margin_size(dataset, generators[0].as_slice()) else {
        return Err(KindFault::Matrix(MatrixFault::TooManyMargins));
    };
    let scale = Scale::Rows(first_rows(alloc, first)?);
    model_on(
        alloc,
        rows,
        count,
        entries.as_slice(),
        scale,
        base.as_slice(),
    )
}

/// The hierarchical model of generators, each the names of its factors.
fn named_model(
    alloc: Global,
    dataset: &Dataset,
    generators: &[Names],
    base: Option<Vec<u32>>,
) -> Result<Model, KindFault>
    ensures { Gives kind_cause (λ m. m) result
        (named_model dataset.now generators.now (option_map (λ v. v.items) base)) }
{
    if !all_factors(dataset, generators) {
        return Err(KindFault::UnknownFactor);
    }
    if generators.is_empty() {
        return Err(KindFault::EmptyGenerators);
    }
    let placed = generators_named(alloc, dataset, generators)?;
    margins_model(alloc, dataset, placed.as_slice(), base)
}

/// The model of kind `hierarchical`.
pub(crate) fn hierarchical(
    alloc: Global,
    dataset: &Dataset,
    text: &ModelText,
) -> Result<Model, KindFault>
    ensures { Gives kind_cause (λ m. m) result (hierarchical dataset.now (table_view text.now)) }
{
    let generators = generators_at(alloc, text)?;
    let base = base_at(alloc, text)?;
    named_model(alloc, dataset, generators.as_slice(), base)
}

/// The generator of one factor.
fn one_factor(alloc: Global, factor: usize) -> Result<Generator, OutOfMemory>
    ensures { IfOk result (λ g. g ≡ factor ∷ []) }
{
    let mut factors = Vec::new(alloc);
    factors.push(factor)?;
    Ok(Generator::new(factors))
}

/// The two generators of one factor each.
fn two_factors(alloc: Global) -> Result<Vec<Generator>, OutOfMemory>
    ensures { IfOk result (λ v. v.items ≡ (0 ∷ []) ∷ (1 ∷ []) ∷ []) }
{
    let mut generators = Vec::new(alloc);
    generators.push(one_factor(alloc, 0)?)?;
    generators.push(one_factor(alloc, 1)?)?;
    Ok(generators)
}

/// The model of kind `quasi-independence`.
pub(crate) fn quasi_independence(
    alloc: Global,
    dataset: &Dataset,
    text: &ModelText,
) -> Result<Model, KindFault>
    ensures { Gives kind_cause (λ m. m) result
        (quasi_independence dataset.now (table_view text.now)) }
{
    let base = base_at(alloc, text)?;
    if dataset.factors() != 2 {
        return Err(KindFault::NotTwoFactors);
    }
    let generators = two_factors(alloc)?;
    margins_model(alloc, dataset, generators.as_slice(), base)
}
