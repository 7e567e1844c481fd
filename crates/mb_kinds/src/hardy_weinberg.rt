//! Hardy-Weinberg models: genotypes as pairs of classes (alleles).

ghost use Rattle.std.specs.Prelude.{◌≡◌, ◌+◌, ◌-◌, ◌<◌, ◌++◌, IfOk, map, pos};
ghost use Rattle.std.specs.List.{range_with_len};
ghost use Rattle.mb_kinds.specs.Kinds.{class_row, genotypes, hardy_weinberg, orders, same};
ghost use Rattle.mb_kinds.specs.ModelText.{kind_cause};
ghost use Rattle.mb_kinds.specs.loops.Placed.{end_to_end};
ghost use Rattle.mb_tables.specs.Answers.{Gives};
ghost use Rattle.toml.specs.View.{table_view};

use crate::building::model_on;
use crate::kind_fault::KindFault;
use crate::model::Model;
use crate::model_text::{ModelText, classes_at};
use mb_data::Dataset;
use mb_matrix::Scale;
use mb_tables::OutOfMemory;
use std::alloc::Global;

/// The pairs so far, and those of a class with itself and each later one.
fn push_pairs(
    mut pairs: Vec<(u32, u32)>,
    class: u32,
    classes: u32,
) -> Result<Vec<(u32, u32)>, OutOfMemory>
    requires { class < classes }
    ensures { IfOk result (λ v. v.items
        ≡ pairs.items ++ map (λ j. (class, j)) (range_with_len class (classes - class))) }
{
    for other in class..classes {
        pairs.push((class, other))?;
    }
    Ok(pairs)
}

/// The pairs of so many classes.
fn genotypes(alloc: Global, classes: u32) -> Result<Vec<(u32, u32)>, OutOfMemory>
    ensures { IfOk result (λ v. v.items ≡ genotypes classes) }
{
    let mut pairs = Vec::new(alloc);
    for class in 0..classes {
        pairs = push_pairs(pairs, class, classes)?;
    }
    Ok(pairs)
}

/// How often a pair has a class.
fn times(pair: (u32, u32), class: u32) -> i32
    ensures { result ≡ pos (same class pair.0 + same class pair.1) }
{
    i32::from(class == pair.0) + i32::from(class == pair.1)
}

/// The entries so far, and the row of a class.
fn push_class(
    mut entries: Vec<i32>,
    pairs: &[(u32, u32)],
    class: u32,
) -> Result<Vec<i32>, OutOfMemory>
    ensures { IfOk result (λ v. v.items
        ≡ entries.items ++ map (λ p. pos (same class p.0 + same class p.1)) pairs.now) }
{
    for pair in pairs {
        entries.push(times(*pair, class))?;
    }
    Ok(entries)
}

/// The rows of so many classes, end to end.
fn class_rows(alloc: Global, pairs: &[(u32, u32)], classes: u32) -> Result<Vec<i32>, OutOfMemory>
    requires { pairs.now ≡ genotypes classes }
    ensures { IfOk result (λ v. v.items
        ≡ end_to_end (map (class_row classes) (range_with_len 0 classes))) }
{
    let mut entries = Vec::new(alloc);
    for class in 0..classes {
        entries = push_class(entries, pairs, class)?;
    }
    Ok(entries)
}

/// In how many orders each pair comes.
fn orders(alloc: Global, pairs: &[(u32, u32)]) -> Result<Vec<u32>, OutOfMemory>
    ensures { IfOk result (λ v. v.items ≡ map orders pairs.now) }
{
    let mut base = Vec::new(alloc);
    for pair in pairs {
        if pair.0 == pair.1 {
            base.push(1)?;
        } else {
            base.push(2)?;
        }
    }
    Ok(base)
}

/// The model of kind `hardy-weinberg`.
pub(crate) fn hardy_weinberg(
    alloc: Global,
    dataset: &Dataset,
    text: &ModelText,
) -> Result<Model, KindFault>
    ensures { Gives kind_cause (λ m. m) result (hardy_weinberg dataset.now (table_view text.now)) }
{
    let classes = classes_at(text)?;
    let pairs = genotypes(alloc, classes)?;
    let cells = dataset.cells();
    if pairs.len() != cells as usize {
        return Err(KindFault::CellCount {
            matrix: pairs.len() as u64,
            cells,
        });
    }
    let entries = class_rows(alloc, pairs.as_slice(), classes)?;
    let base = orders(alloc, pairs.as_slice())?;
    model_on(
        alloc,
        classes,
        cells,
        entries.as_slice(),
        Scale::All,
        base.as_slice(),
    )
}
