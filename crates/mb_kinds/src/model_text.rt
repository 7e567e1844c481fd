//! Model files: a TOML table, and the values of its keys. No other module reads TOML.

ghost use Rattle.std.specs.Prelude.{◌≡◌, ◌≤◌, Err, IfOk, option_map};
ghost use Rattle.mb_kinds.specs.ModelText.{base_at, classes_at, generators_at, items_by, kind_cause, list_in, number_in, scale_at, text_at, text_in, toml_of};
ghost use Rattle.mb_tables.specs.Answers.{Gives};
ghost use Rattle.toml.specs.Data.{get_member};
ghost use Rattle.toml.specs.View.{array_view, table_view, view};

use crate::kind_fault::{KindFault, ModelKey};
use crate::names::Names;
use std::alloc::Global;
use toml::value::Array;
use toml::{Table, Value};

/// A model file: its TOML table.
pub(crate) type ModelText = Table;

/// The TOML table that the bytes are.
pub(crate) fn read_text(alloc: Global, text: &[u8]) -> Result<ModelText, KindFault>
    ensures { Gives kind_cause table_view result (toml_of text.now) }
{
    match toml::table_from_slice(alloc, text) {
        Ok(table) => Ok(table),
        Err(e) if e.is_memory() => Err(KindFault::OutOfMemory),
        Err(_) => Err(KindFault::Toml),
    }
}

/// The value of a key.
fn value<'a>(table: &'a ModelText, key: &str) -> Option<&'a Value>
    ensures { option_map (λ v. view v.now) result ≡ get_member key.now (table_view table.now) }
{
    table.get(key)
}

/// A value as a text.
fn text_in(key: ModelKey, value: &Value) -> Result<&str, KindFault>
    ensures { Gives kind_cause (λ s. s.now) result (text_in key (view value.now)) }
{
    match value.as_str() {
        Some(text) => Ok(text),
        None => Err(KindFault::MissingKey { key }),
    }
}

/// The text at a key.
pub(crate) fn text_at<'a>(
    table: &'a ModelText,
    key: ModelKey,
    name: &str,
) -> Result<&'a str, KindFault>
    ensures { Gives kind_cause (λ s. s.now) result (text_at key name.now (table_view table.now)) }
{
    match value(table, name) {
        Some(value) => text_in(key, value),
        None => Err(KindFault::MissingKey { key }),
    }
}

/// A value as a number from the lowest to the highest.
fn number_in(key: ModelKey, lowest: u32, highest: u32, value: &Value) -> Result<u32, KindFault>
    ensures { Gives kind_cause (λ n. n) result (number_in key lowest highest (view value.now)) }
{
    match value.as_integer() {
        Some(n) if i64::from(lowest) <= n && n <= i64::from(highest) => Ok(n as u32),
        _ => Err(KindFault::MissingKey { key }),
    }
}

/// The number of classes, 1 to 10.
pub(crate) fn classes_at(table: &ModelText) -> Result<u32, KindFault>
    ensures classes { Gives kind_cause (λ n. n) result (classes_at (table_view table.now)) }
    ensures some { IfOk result (λ n. 1 ≤ n) }
    ensures few { IfOk result (λ n. n ≤ 10) }
{
    match value(table, "classes") {
        Some(value) => number_in(ModelKey::Classes, 1, 10, value),
        None => Err(KindFault::MissingKey {
            key: ModelKey::Classes,
        }),
    }
}

/// The items of an array as numbers from the lowest to the highest.
fn numbers_by(
    alloc: Global,
    key: ModelKey,
    lowest: u32,
    highest: u32,
    items: &Array,
) -> Result<Vec<u32>, KindFault>
    ensures { Gives kind_cause (λ v. v.items) result
        (items_by (number_in key lowest highest) (array_view items.now)) }
{
    let mut numbers = Vec::new(alloc);
    for k in 0..items.len() {
        let n = number_in(key, lowest, highest, &items[k])?;
        numbers.push(n)?;
    }
    Ok(numbers)
}

/// A value as a list of numbers from the lowest to the highest.
fn numbers_in(
    alloc: Global,
    key: ModelKey,
    lowest: u32,
    highest: u32,
    value: &Value,
) -> Result<Vec<u32>, KindFault>
    ensures { Gives kind_cause (λ v. v.items) result
        (list_in key (number_in key lowest highest) (view value.now)) }
{
    match value.as_array() {
        Some(items) => numbers_by(alloc, key, lowest, highest, items),
        None => Err(KindFault::MissingKey { key }),
    }
}

/// The numbers of the scale, where it is given.
pub(crate) fn scale_at(alloc: Global, table: &ModelText) -> Result<Option<Vec<u32>>, KindFault>
    ensures { Gives kind_cause (λ x. option_map (λ v. v.items) x) result
        (scale_at (table_view table.now)) }
{
    match value(table, "scale") {
        Some(value) => Ok(Some(numbers_in(alloc, ModelKey::Scale, 0, 4_294_967_295, value)?)),
        None => Ok(None),
    }
}

/// The base numbers, each 1 or more, where they are given.
pub(crate) fn base_at(alloc: Global, table: &ModelText) -> Result<Option<Vec<u32>>, KindFault>
    ensures { Gives kind_cause (λ x. option_map (λ v. v.items) x) result
        (base_at (table_view table.now)) }
{
    match value(table, "base") {
        Some(value) => Ok(Some(numbers_in(alloc, ModelKey::Base, 1, 4_294_967_295, value)?)),
        None => Ok(None),
    }
}

/// The items of an array as texts.
fn texts_by(alloc: Global, key: ModelKey, items: &Array) -> Result<Names, KindFault>
    ensures { Gives kind_cause (λ names. names) result
        (items_by (text_in key) (array_view items.now)) }
{
    let mut names = Names::new(alloc);
    for k in 0..items.len() {
        let name = text_in(key, &items[k])?;
        names.push(alloc, name)?;
    }
    Ok(names)
}

/// A value as a list of texts.
fn texts_in(alloc: Global, key: ModelKey, value: &Value) -> Result<Names, KindFault>
    ensures { Gives kind_cause (λ names. names) result
        (list_in key (text_in key) (view value.now)) }
{
    match value.as_array() {
        Some(items) => texts_by(alloc, key, items),
        None => Err(KindFault::MissingKey { key }),
    }
}

/// The items of an array as lists of texts.
fn lists_by(alloc: Global, key: ModelKey, items: &Array) -> Result<Vec<Names>, KindFault>
    ensures { Gives kind_cause (λ v. v.items) result
        (items_by (list_in key (text_in key)) (array_view items.now)) }
{
    let mut lists = Vec::new(alloc);
    for k in 0..items.len() {
        let names = texts_in(alloc, key, &items[k])?;
        lists.push(names)?;
    }
    Ok(lists)
}

/// The generators: lists of names of factors.
pub(crate) fn generators_at(alloc: Global, table: &ModelText) -> Result<Vec<Names>, KindFault>
    ensures { Gives kind_cause (λ v. v.items) result (generators_at (table_view table.now)) }
{
    let key = ModelKey::Generators;
    match value(table, "generators") {
        Some(value) => match value.as_array() {
            Some(items) => lists_by(alloc, key, items),
            None => Err(KindFault::MissingKey { key }),
        },
        None => Err(KindFault::MissingKey { key }),
    }
}
