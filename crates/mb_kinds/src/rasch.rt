//! Rasch models: the hierarchical models of the three pairs of person, item and response.

ghost use Rattle.std.specs.Prelude.{◌≡◌, ◌∷◌, [], IfOk, option_map};
ghost use Rattle.mb_kinds.specs.Kinds.{are_apart, are_binary, pairs_of, rasch, rasch_model};
ghost use Rattle.mb_kinds.specs.ModelText.{kind_cause};
ghost use Rattle.mb_tables.specs.Answers.{Gives};
ghost use Rattle.toml.specs.View.{table_view};

use crate::generator::{are_factors, factors_named, generators_named};
use crate::hierarchical::margins_model;
use crate::kind_fault::{KindFault, ModelKey};
use crate::model::Model;
use crate::model_text::{ModelText, base_at, text_at};
use crate::names::Names;
use mb_data::Dataset;
use mb_tables::OutOfMemory;
use std::alloc::Global;

/// Two names.
fn pair(alloc: Global, first: &str, second: &str) -> Result<Names, OutOfMemory>
    ensures { IfOk result (λ names. names ≡ first.now ∷ second.now ∷ []) }
{
    let mut names = Names::new(alloc);
    names.push(alloc, first)?;
    names.push(alloc, second)?;
    Ok(names)
}

/// One name.
fn single(alloc: Global, name: &str) -> Result<Names, OutOfMemory>
    ensures { IfOk result (λ names. names ≡ name.now ∷ []) }
{
    let mut names = Names::new(alloc);
    names.push(alloc, name)?;
    Ok(names)
}

/// The three pairs of three names.
fn pairs_of(
    alloc: Global,
    person: &str,
    item: &str,
    response: &str,
) -> Result<Vec<Names>, OutOfMemory>
    ensures { IfOk result (λ v. v.items ≡ pairs_of person.now item.now response.now) }
{
    let mut pairs = Vec::new(alloc);
    pairs.push(pair(alloc, person, item)?)?;
    pairs.push(pair(alloc, person, response)?)?;
    pairs.push(pair(alloc, item, response)?)?;
    Ok(pairs)
}

/// Whether the factors that are named have two levels each.
fn are_binary(alloc: Global, dataset: &Dataset, names: &Names) -> Result<bool, OutOfMemory>
    ensures { IfOk result (λ b. b ≡ are_binary dataset.now names.now) }
{
    let _sound = dataset.factors();
    let generator = factors_named(alloc, dataset, names)?;
    for factor in generator.as_slice() {
        if dataset.levels(*factor) != 2 {
            return Ok(false);
        }
    }
    Ok(true)
}

/// Whether the three names differ, and the last is that of a factor with two levels.
fn are_apart(
    alloc: Global,
    dataset: &Dataset,
    person: &str,
    item: &str,
    response: &str,
) -> Result<bool, OutOfMemory>
    ensures { IfOk result (λ b. b ≡ are_apart dataset.now person.now item.now response.now) }
{
    if person == item || person == response || item == response {
        return Ok(false);
    }
    let names = single(alloc, response)?;
    are_binary(alloc, dataset, &names)
}

/// The Rasch model of three factors by name.
fn rasch_model(
    alloc: Global,
    dataset: &Dataset,
    person: &str,
    item: &str,
    response: &str,
    base: Option<Vec<u32>>,
) -> Result<Model, KindFault>
    ensures { Gives kind_cause (λ m. m) result (rasch_model dataset.now person.now item.now
        response.now (option_map (λ v. v.items) base)) }
{
    let mut names = pair(alloc, person, item)?;
    names.push(alloc, response)?;
    if !are_factors(dataset, &names) {
        return Err(KindFault::UnknownFactor);
    }
    if !are_apart(alloc, dataset, person, item, response)? {
        return Err(KindFault::NotBinary);
    }
    let pairs = pairs_of(alloc, person, item, response)?;
    let generators = generators_named(alloc, dataset, pairs.as_slice())?;
    margins_model(alloc, dataset, generators.as_slice(), base)
}

/// The model of kind `rasch`.
pub(crate) fn rasch(alloc: Global, dataset: &Dataset, text: &ModelText) -> Result<Model, KindFault>
    ensures { Gives kind_cause (λ m. m) result (rasch dataset.now (table_view text.now)) }
{
    let person = text_at(text, ModelKey::Person, "person")?;
    let item = text_at(text, ModelKey::Item, "item")?;
    let response = text_at(text, ModelKey::Response, "response")?;
    let base = base_at(alloc, text)?;
    rasch_model(alloc, dataset, person, item, response, base)
}
