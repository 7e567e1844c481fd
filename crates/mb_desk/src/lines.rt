//! The one line of a refusal.
ghost use Rattle.std.specs.Prelude.{◌≡◌, ◌++◌, ◌∷◌, IfOk, OnOk, codes, map, string_bytes};
ghost use Rattle.mb_desk.specs.Lines.{counts, field_text, line_of, number, numbers, text};
ghost use Rattle.std.specs.List.{flat_map, join_with_byte};
ghost use Rattle.std.specs.Fmt.{decimal};

use mb_registry::Body;
use mb_tables::Table;
use std::alloc::{AllocError, AllocFailed, Global};
use std::marker::Model;

/// The value of a field.
#[derive(Clone, Copy)]
enum Value<'a> {
    Number(u64),
    Pair(u32, u32),
    Text(&'a str),
    Counts(&'a [u32]),
}

/// A key and its value. Contracts see both as they are printed.
#[derive(Drop)]
pub struct Field<'a> {
    key: &'a str,
    value: Value<'a>,
}

impl<'a> Model for Field<'a> {
    ghost use Rattle.mb_desk.specs.Lines.{Shown, shown_code};
    ghost use Rattle.mb_desk.specs.Values.{value_text};

    ghost Value = { Shown };

    ghost coded = { shown_code };

    ghost view = { λ field. record { key = field.key.now; value = value_text field.value } };
}

/// A number under a key.
pub fn number(key: &str, value: u32) -> Field<'_>
    ensures { result ≡ number key.now value }
{
    Field {
        key,
        value: Value::Number(u64::from(value)),
    }
}

/// Two numbers under a key.
pub fn numbers(key: &str, pair: (u32, u32)) -> Field<'_>
    ensures { result ≡ numbers key.now pair }
{
    Field {
        key,
        value: Value::Pair(pair.0, pair.1),
    }
}

/// A number of 64 bits under a key.
pub fn wide(key: &str, value: u64) -> Field<'_>
    ensures { result ≡ number key.now value }
{
    Field {
        key,
        value: Value::Number(value),
    }
}

/// The counts of a table under a key.
pub fn counts<'a>(key: &'a str, table: &'a Table) -> Field<'a>
    ensures { result ≡ counts key.now table.now }
{
    Field {
        key,
        value: Value::Counts(table.as_slice()),
    }
}

/// A text under a key.
pub fn text<'a>(key: &'a str, value: &'a str) -> Field<'a>
    ensures { result ≡ text key.now value.now }
{
    Field {
        key,
        value: Value::Text(value),
    }
}

/// Appends counts, one space between each two.
fn append_counts(alloc: Global, line: &mut String, counts: &[u32]) -> Result<(), AllocError>
    ensures { OnOk result (string_bytes line.new
        ≡ string_bytes line.old ++ join_with_byte 32 (map decimal counts.now)) }
{
    let Some((first, others)) = counts.split_first() else {
        return Ok(());
    };
    append_count(alloc, line, *first)?;
    append_spaced(alloc, line, others)?;
    Ok(())
}

/// Appends a count.
fn append_count(alloc: Global, line: &mut String, count: u32) -> Result<(), AllocError>
    ensures { OnOk result (string_bytes line.new ≡ string_bytes line.old ++ decimal count) }
{
    line.push_str(format!(in alloc; "{count}")?.as_str())
}

/// Appends counts, a space before each.
fn append_spaced(alloc: Global, line: &mut String, counts: &[u32]) -> Result<(), AllocError>
    ensures { OnOk result (string_bytes line.new
        ≡ string_bytes line.old ++ flat_map (λ n. 32 ∷ decimal n) counts.now) }
{
    for count in counts {
        line.push_str(format!(in alloc; " {count}")?.as_str())?;
    }
    Ok(())
}

impl<'a> Field<'a> {
    /// Appends a space, the key, a space and the value.
    fn append_to(&self, alloc: Global, line: &mut String) -> Result<(), AllocError>
        ensures { OnOk result (string_bytes line.new
            ≡ string_bytes line.old ++ field_text self.now) }
    {
        line.push_str(" ")?;
        line.push_str(self.key)?;
        line.push_str(" ")?;
        match self.value {
            Value::Number(number) => line.push_str(format!(in alloc; "{number}")?.as_str()),
            Value::Pair(first, second) => {
                line.push_str(format!(in alloc; "{first} {second}")?.as_str())
            }
            Value::Text(text) => line.push_str(text),
            Value::Counts(counts) => append_counts(alloc, line, counts),
        }
    }
}

/// The line of a refusal of a name and fields.
#[tactic(auto, unfolding(crate::specs::Lines::fields_text))]
pub fn refused(alloc: Global, name: &str, fields: &[Field<'_>]) -> Result<Body, AllocError>
    ensures { IfOk result (λ line. line ≡ line_of name.now fields.now) }
{
    let mut line = format!(in alloc; "refused {name}")?;
    for field in fields {
        field.append_to(alloc, &mut line)?;
    }
    line.push_str("\n")?;
    Ok(Body::of_line(line))
}
