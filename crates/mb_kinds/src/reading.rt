//! Model files.

ghost use Rattle.std.specs.Prelude.{option_map};
ghost use Rattle.mb_kinds.specs.Kinds.{model_of, of_kind};
ghost use Rattle.mb_kinds.specs.ModelText.{kind_cause};
ghost use Rattle.mb_tables.specs.Answers.{Gives};
ghost use Rattle.toml.specs.View.{table_view};

use crate::hardy_weinberg::hardy_weinberg;
use crate::hierarchical::{hierarchical, quasi_independence};
use crate::kind_fault::{KindFault, ModelKey};
use crate::matrix_file::of_matrix_file;
use crate::model::Model;
use crate::model_text::{ModelText, read_text, text_at};
use crate::rasch::rasch;
use mb_data::Dataset;
use std::alloc::Global;

/// The model of a kind by its name.
fn of_kind(
    alloc: Global,
    kind: &str,
    dataset: &Dataset,
    matrix_text: Option<&[u8]>,
    text: &ModelText,
) -> Result<Model, KindFault>
    ensures { Gives kind_cause (λ m. m) result (of_kind kind.now dataset.now
        (option_map (λ f. f.now) matrix_text.entry) (table_view text.now)) }
{
    if kind == "hierarchical" {
        return hierarchical(alloc, dataset, text);
    }
    if kind == "quasi-independence" {
        return quasi_independence(alloc, dataset, text);
    }
    if kind == "rasch" {
        return rasch(alloc, dataset, text);
    }
    if kind == "hardy-weinberg" {
        return hardy_weinberg(alloc, dataset, text);
    }
    if kind == "matrix" {
        return of_matrix_file(alloc, dataset, matrix_text, text);
    }
    Err(KindFault::UnknownKind)
}

/// The model that a model file says on a dataset, with the text of the matrix file beside it, or
/// the first fault, in the order of `KindFault`.
///
/// The kinds are `hierarchical` by its generators, `quasi-independence` of two factors, `rasch` of
/// person, item and response, `hardy-weinberg` of so many classes, and `matrix`. The text of a
/// matrix file is read for the kind `matrix` alone. Want of memory can come in place of any answer.
pub fn read_model(
    alloc: Global,
    text: &[u8],
    matrix_text: Option<&[u8]>,
    dataset: &Dataset,
) -> Result<Model, KindFault>
    ensures { Gives kind_cause (λ m. m) result
        (model_of text.now (option_map (λ f. f.now) matrix_text.entry) dataset.now) }
{
    let table = read_text(alloc, text)?;
    let kind = text_at(&table, ModelKey::Kind, "kind")?;
    of_kind(alloc, kind, dataset, matrix_text, &table)
}
