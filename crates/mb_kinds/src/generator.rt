//! A generator of a hierarchical model.

ghost use Rattle.std.specs.List.{list_all};
ghost use Rattle.std.specs.Prelude.{◌≡◌, IfOk, map};
ghost use Rattle.mb_kinds.specs.Generators.{are_factors, factors_named, is_among};

use crate::names::Names;
use mb_data::Dataset;
use mb_tables::OutOfMemory;
use std::alloc::Global;
use std::marker::Model;

/// The factors of a generator, seen as their places in the dataset's order.
#[derive(Drop)]
pub(crate) struct Generator {
    factors: Vec<usize>,
}

impl Model for Generator {
    ghost use Rattle.std.specs.Prelude.{List, ℕ};

    ghost Value = { List ℕ };

    ghost view = { λ g. g.factors.items };
}

impl Generator {
    /// The generator of these factors.
    pub(crate) fn new(factors: Vec<usize>) -> Generator
        ensures { result ≡ factors.items }
    {
        Generator { factors }
    }

    /// The places of its factors.
    pub(crate) fn as_slice(&self) -> &[usize]
        ensures { result.now ≡ self.now }
    {
        self.factors.as_slice()
    }
}

/// The factors that are named, in the dataset's order.
pub(crate) fn factors_named(
    alloc: Global,
    dataset: &Dataset,
    names: &Names,
) -> Result<Generator, OutOfMemory>
    ensures { IfOk result (λ g. g ≡ factors_named dataset.now.factors names.now) }
{
    let mut factors = Vec::new(alloc);
    for k in 0..dataset.factors() {
        if names.has(dataset.factor(k)) {
            factors.push(k)?;
        }
    }
    Ok(Generator::new(factors))
}

/// Whether a name is a factor's.
fn is_factor(dataset: &Dataset, name: &str) -> bool
    ensures { result ≡ is_among dataset.now.factors name.now }
{
    for k in 0..dataset.factors() {
        if name == dataset.factor(k) {
            return true;
        }
    }
    false
}

/// Whether each name is a factor's.
pub(crate) fn are_factors(dataset: &Dataset, names: &Names) -> bool
    ensures { result ≡ are_factors dataset.now.factors names.now }
{
    for k in 0..names.len() {
        if !is_factor(dataset, names.name(k)) {
            return false;
        }
    }
    true
}

/// Whether each of these generators names factors alone.
pub(crate) fn all_factors(dataset: &Dataset, generators: &[Names]) -> bool
    ensures { result ≡ list_all (are_factors dataset.now.factors) generators.now }
{
    for names in generators {
        if !are_factors(dataset, names) {
            return false;
        }
    }
    true
}

/// The generators by the places of their factors.
pub(crate) fn generators_named(
    alloc: Global,
    dataset: &Dataset,
    named: &[Names],
) -> Result<Vec<Generator>, OutOfMemory>
    ensures { IfOk result (λ list. list.items ≡ map (factors_named dataset.now.factors) named.now) }
{
    let mut generators = Vec::new(alloc);
    for names in named {
        generators.push(factors_named(alloc, dataset, names)?)?;
    }
    Ok(generators)
}
