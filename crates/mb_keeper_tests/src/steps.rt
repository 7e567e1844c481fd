//! Calls of a keeper with the answers that they should give.
ghost use Rattle.std.specs.Prelude.{IfOk, ◌≡◌};

use mb_outside::{KeepFault, Keeper, Row};
use std::alloc::{AllocError, Global};

/// A call and its answer.
#[derive(Clone, Copy)]
pub enum Step {
    /// A put adds the row.
    Adds(u8, &'static str, &'static str),
    /// A put of another body is answered with this one, which is kept.
    Keeps(u8, &'static str, &'static str),
    /// A look-up gives this body.
    Finds(u8, &'static str, &'static str),
    /// A look-up gives nothing.
    Lacks(u8, &'static str),
    /// A row is taken out.
    Takes(u8, &'static str),
    /// There is no row to take out.
    Misses(u8, &'static str),
    /// These are the names of the kind, each with a space behind it.
    Lists(u8, &'static str),
    /// The rows are replaced by two of this name, of the kinds 1 and 2.
    Replaces(&'static str),
    /// The rows are replaced by none.
    Empties,
}

/// The longest name that a record has.
const LONGEST: &str = "abcdefghijklmnopqrstuvwxyz-ABCDEFGHIJKLMNOPQRSTUVWXYZ_0123456789";

/// What a keeper without rows answers to calls of each kind, one after the other.
pub const STEPS: [Step; 38] = [
    Step::Lists(1, ""),
    Step::Lacks(1, "b"),
    Step::Misses(1, "b"),
    Step::Adds(1, "b", "x"),
    Step::Finds(1, "b", "x"),
    Step::Keeps(1, "b", "x"),
    Step::Finds(1, "b", "x"),
    Step::Adds(1, "a", "two\nlines\n"),
    Step::Adds(1, "ba", ""),
    Step::Adds(1, "B", "capital"),
    Step::Adds(1, "a2", "2"),
    Step::Adds(1, "a10", "10"),
    Step::Lists(1, "B a a10 a2 b ba "),
    Step::Finds(1, "a", "two\nlines\n"),
    Step::Finds(1, "ba", ""),
    Step::Lacks(2, "b"),
    Step::Adds(2, "b", "another kind"),
    Step::Adds(0, LONGEST, "longest"),
    Step::Adds(255, "b", "last kind"),
    Step::Finds(0, LONGEST, "longest"),
    Step::Keeps(0, LONGEST, "longest"),
    Step::Lists(2, "b "),
    Step::Lists(255, "b "),
    Step::Lists(3, ""),
    Step::Takes(1, "b"),
    Step::Misses(1, "b"),
    Step::Lacks(1, "b"),
    Step::Finds(2, "b", "another kind"),
    Step::Lists(1, "B a a10 a2 ba "),
    Step::Adds(1, "b", "again"),
    Step::Finds(1, "b", "again"),
    Step::Replaces("c"),
    Step::Lists(1, "c "),
    Step::Finds(1, "c", "one"),
    Step::Finds(2, "c", "two"),
    Step::Lists(0, ""),
    Step::Empties,
    Step::Lists(2, ""),
];

/// Whether a put of a body is answered that it was added.
fn is_added<K: Keeper>(alloc: Global, keeper: &mut K, kind: u8, name: &str, body: &str) -> bool {
    matches!(keeper.put(alloc, kind, name, body.as_bytes()), Ok(None))
}

/// Whether this body is the answer.
fn is_body(found: Result<Option<Vec<u8>>, KeepFault>, body: &str) -> bool {
    match found {
        Ok(Some(kept)) => kept.as_slice() == body.as_bytes(),
        _ => false,
    }
}

/// Whether the names of a kind are these, each with a space behind it.
fn lists<K: Keeper>(
    alloc: Global,
    keeper: &mut K,
    kind: u8,
    wanted: &str,
) -> Result<bool, AllocError> {
    let Ok(names) = keeper.names(alloc, kind) else {
        return Ok(false);
    };
    let mut joined = Vec::new(alloc);
    for name in &names {
        joined.extend_from_slice(name.as_bytes())?;
        joined.push(b' ')?;
    }
    Ok(joined.as_slice() == wanted.as_bytes())
}

/// A row.
fn row(alloc: Global, kind: u8, name: &str, body: &str) -> Result<Row, AllocError>
    ensures { IfOk result (λ row. row.kind ≡ kind) }
{
    Ok(Row {
        kind,
        name: String::from_str(alloc, name)?,
        body: Vec::from_slice(alloc, body.as_bytes())?,
    })
}

/// Whether the rows are replaced by two of this name.
fn replaces<K: Keeper>(alloc: Global, keeper: &mut K, name: &str) -> Result<bool, AllocError> {
    let rows = [row(alloc, 1, name, "one")?, row(alloc, 2, name, "two")?];
    Ok(keeper.replace_all(&rows).is_ok())
}

/// Whether a call is answered as it should be.
fn is_answered<K: Keeper>(alloc: Global, keeper: &mut K, step: Step) -> Result<bool, AllocError> {
    match step {
        Step::Adds(kind, name, body) => Ok(is_added(alloc, keeper, kind, name, body)),
        Step::Keeps(kind, name, body) => Ok(is_body(keeper.put(alloc, kind, name, b"other"), body)),
        Step::Finds(kind, name, body) => Ok(is_body(keeper.get(alloc, kind, name), body)),
        Step::Lacks(kind, name) => Ok(matches!(keeper.get(alloc, kind, name), Ok(None))),
        Step::Takes(kind, name) => Ok(matches!(keeper.remove(kind, name), Ok(true))),
        Step::Misses(kind, name) => Ok(matches!(keeper.remove(kind, name), Ok(false))),
        Step::Lists(kind, names) => lists(alloc, keeper, kind, names),
        Step::Replaces(name) => replaces(alloc, keeper, name),
        Step::Empties => Ok(keeper.replace_all(&[]).is_ok()),
    }
}

/// The place of the first call that isn't answered as it should be.
pub fn first_wrong<K: Keeper>(
    alloc: Global,
    keeper: &mut K,
    steps: &[Step],
) -> Result<Option<usize>, AllocError> {
    for (place, step) in steps.iter().enumerate() {
        if !is_answered(alloc, keeper, *step)? {
            return Ok(Some(place));
        }
    }
    Ok(None)
}
