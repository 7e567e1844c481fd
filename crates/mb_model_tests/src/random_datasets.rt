//! Random datasets, read and written, beside the plain model in tests/outside/dataset_model.

use crate::dataset_cases::CASES;
use crate::dataset_faults::FAULTS;
use crate::datasets::fault_of;
use mb_data::{DataFault, Dataset, Entry, read_dataset, write_dataset};
use mb_tables::OutOfMemory;
use mb_text::{push_number, push_text};
use std::alloc::Global;
use std::test::Fail;

/// The name of a factor, and its levels in order.
pub(crate) type Factor = (&'static str, &'static [&'static str]);

/// A text that is a dataset, and what it says.
#[derive(Clone, Copy)]
pub(crate) struct Case {
    /// The text.
    pub(crate) text: &'static [u8],
    /// The factors with their levels.
    pub(crate) factors: &'static [Factor],
    /// The entries of all combinations: counts, or `*` for a structural zero.
    pub(crate) entries: &'static [u8],
    /// The written form.
    pub(crate) written: &'static [u8],
}

/// Whether a factor of a dataset has these levels.
fn has_levels(dataset: &Dataset, factor: usize, levels: &[&str]) -> bool {
    if factor >= dataset.factors() || dataset.levels(factor) != levels.len() {
        return false;
    }
    for level in 0..levels.len() {
        if dataset.level(factor, level) != levels[level] {
            return false;
        }
    }
    true
}

/// Whether a dataset has these factors with these levels.
fn has_factors(dataset: &Dataset, factors: &[Factor]) -> bool {
    if dataset.factors() != factors.len() {
        return false;
    }
    for factor in 0..factors.len() {
        let (name, levels) = factors[factor];
        if dataset.factor(factor) != name || !has_levels(dataset, factor, levels) {
            return false;
        }
    }
    true
}

/// The entries of all combinations, as a case lists them.
fn entries_of(alloc: Global, dataset: &Dataset) -> Result<Vec<u8>, OutOfMemory> {
    let mut text = Vec::new(alloc);
    for number in 0..dataset.combinations() {
        if number > 0 {
            push_text(&mut text, b" ")?;
        }
        push_entry(&mut text, dataset.entry(number))?;
    }
    Ok(text)
}

/// Adds an entry to a text.
fn push_entry(text: &mut Vec<u8>, entry: Entry) -> Result<(), OutOfMemory> {
    match entry {
        Entry::Count(count) => push_number(text, count),
        Entry::StructuralZero => push_text(text, b"*"),
    }
}

/// Whether a text says what a case wants, and is written in that form.
fn is_read_and_written(alloc: Global, text: &[u8], case: &Case) -> Result<bool, Fail> {
    let Ok(dataset) = read_dataset(alloc, text) else {
        return Ok(false);
    };
    let entries = entries_of(alloc, &dataset)?;
    let written = write_dataset(alloc, &dataset)?;
    Ok(
        has_factors(&dataset, case.factors)
            && entries.as_slice() == case.entries
            && written.as_slice() == case.written,
    )
}

/// The place of the first case that is read or written otherwise, from its text or from the written
/// form, which says the same.
fn first_wrong_text(alloc: Global, cases: &[Case]) -> Result<Option<usize>, Fail> {
    for (place, case) in cases.iter().enumerate() {
        if !is_read_and_written(alloc, case.text, case)?
            || !is_read_and_written(alloc, case.written, case)?
        {
            return Ok(Some(place));
        }
    }
    Ok(None)
}

// From the plain model.
#[test]
fn random_texts_are_read_and_written_as_the_plain_model_says(rt: HostRuntime) -> Result<(), Fail> {
    assert_eq!(rt; first_wrong_text(rt.alloc(), &CASES)?, None);
    Ok(())
}

/// The place of the first text in which another fault is found, or none.
fn first_wrong_fault(rt: &HostRuntime, cases: &[(&[u8], DataFault)]) -> Option<usize> {
    for (place, (text, wanted)) in cases.iter().enumerate() {
        if fault_of(rt, text) != Some(*wanted) {
            return Some(place);
        }
    }
    None
}

// From the plain model.
#[test]
fn random_faults_are_found_as_the_plain_model_says(rt: HostRuntime) -> Result<(), Fail> {
    assert_eq!(rt; first_wrong_fault(&rt, &FAULTS), None);
    Ok(())
}
