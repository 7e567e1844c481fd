//! Sessions at the desk: files, rows and commands one after the other, with what each should
//! answer and what should be there afterwards.

use mb_desk::{Status, desk};
use mb_keeper::SqlKeeper;
use mb_outside::{Files, KeepFault, Keeper, MemSink, NoGate, SureFiles, SureKeeper};
use std::alloc::{AllocError, Global};
use std::thread::Threads;

/// A text in pieces, one after the other.
pub type Pieces = &'static [&'static str];

/// A step of a list of commands. Kinds are numbers: 1 a dataset, 2 a model, 3 a basis, 4 an
/// analysis.
#[derive(Clone, Copy)]
pub enum Step {
    /// A file of this name is written.
    File(&'static str, Pieces),
    /// A row of this kind and name is put by another hand, with this body.
    Row(u8, &'static str, Pieces),
    /// These words are done, and this is printed.
    Done(&'static str, Pieces),
    /// These words end in this status, and this is printed.
    Ends(Status, &'static str, &'static str),
    /// The row of this kind and name has this body.
    Has(u8, &'static str, Pieces),
    /// There are so many rows.
    Rows(usize),
    /// The file of this name has this text.
    Holds(&'static str, Pieces),
}

/// The bytes of a text in pieces.
pub fn whole(alloc: Global, pieces: &[&str]) -> Result<Vec<u8>, AllocError> {
    let mut bytes = Vec::new(alloc);
    for piece in pieces {
        bytes.extend_from_slice(piece.as_bytes())?;
    }
    Ok(bytes)
}

/// The words of a line, one space apart.
fn words_of(alloc: Global, line: &str) -> Result<Vec<String>, AllocError> {
    let mut words = Vec::new(alloc);
    for word in line.split_whitespace() {
        words.push(String::from_str(alloc, word)?)?;
    }
    Ok(words)
}

/// Calls the desk with the words of a line.
pub fn call<R: Threads + Sync, F: Files, K: Keeper>(
    rt: &R,
    alloc: Global,
    files: &mut F,
    keeper: &mut K,
    line: &str,
    out: &mut MemSink,
) -> Result<Status, AllocError> {
    let words = words_of(alloc, line)?;
    Ok(desk(rt, alloc, words.as_slice(), files, keeper, out, &NoGate))
}

/// Whether these words end in this status over the files and the rows, and this is printed.
fn ends<R: Threads + Sync, F: Files, K: Keeper>(
    rt: &R,
    alloc: Global,
    files: &mut F,
    keeper: &mut K,
    line: &str,
    status: Status,
    answer: &[u8],
) -> Result<bool, AllocError> {
    let mut out = MemSink::try_new(alloc, 100_000, &[])?;
    let ended = call(rt, alloc, files, keeper, line, &mut out)?;
    Ok(ended == status && out.bytes() == answer)
}

/// Whether a row is put that wasn't there.
fn puts<K: Keeper>(alloc: Global, keeper: &mut K, kind: u8, name: &str, body: &[u8]) -> bool {
    matches!(keeper.put(alloc, kind, name, body), Ok(None))
}

/// Whether a row has this body.
pub fn has<K: Keeper>(alloc: Global, keeper: &mut K, kind: u8, name: &str, body: &[u8]) -> bool {
    match keeper.get(alloc, kind, name) {
        Ok(Some(kept)) => kept.as_slice() == body,
        _ => false,
    }
}

/// How many rows there are of the kinds 0 to 5, where the keeper answers.
pub fn rows<K: Keeper>(alloc: Global, keeper: &mut K) -> Option<usize> {
    let mut count = 0usize;
    for kind in 0..=5u8 {
        count = count.saturating_add(keeper.names(alloc, kind).ok()?.len());
    }
    Some(count)
}

/// Whether a file has this text.
pub fn holds<F: Files>(alloc: Global, files: &mut F, name: &str, text: &[u8]) -> bool {
    match files.read(alloc, name) {
        Ok(Some(body)) => body.as_slice() == text,
        _ => false,
    }
}

/// The text of a step.
fn text_of(alloc: Global, step: Step) -> Result<Vec<u8>, AllocError> {
    match step {
        Step::File(_, text) | Step::Done(_, text) | Step::Holds(_, text) => whole(alloc, text),
        Step::Row(_, _, text) | Step::Has(_, _, text) => whole(alloc, text),
        Step::Ends(_, _, text) => Vec::from_slice(alloc, text.as_bytes()),
        Step::Rows(_) => Ok(Vec::new(alloc)),
    }
}

/// Whether a step is answered as it should be.
pub fn is_right<R: Threads + Sync, F: Files, K: Keeper>(
    rt: &R,
    alloc: Global,
    files: &mut F,
    keeper: &mut K,
    step: Step,
) -> Result<bool, AllocError> {
    let text = text_of(alloc, step)?;
    let text = text.as_slice();
    match step {
        Step::File(name, _) => Ok(files.write(name, text).is_ok()),
        Step::Row(kind, name, _) => Ok(puts(alloc, keeper, kind, name, text)),
        Step::Done(line, _) => ends(rt, alloc, files, keeper, line, Status::Done, text),
        Step::Ends(status, line, _) => ends(rt, alloc, files, keeper, line, status, text),
        Step::Has(kind, name, _) => Ok(has(alloc, keeper, kind, name, text)),
        Step::Rows(count) => Ok(rows(alloc, keeper) == Some(count)),
        Step::Holds(name, _) => Ok(holds(alloc, files, name, text)),
    }
}

/// The place of the first of these steps that isn't answered as it should be.
pub fn first_wrong_of<R: Threads + Sync, F: Files, K: Keeper>(
    rt: &R,
    alloc: Global,
    files: &mut F,
    keeper: &mut K,
    steps: &[Step],
) -> Result<Option<usize>, AllocError> {
    for (place, step) in steps.iter().enumerate() {
        if !is_right(rt, alloc, files, keeper, *step)? {
            return Ok(Some(place));
        }
    }
    Ok(None)
}

/// The place of the first step, from 0, that isn't answered as it should be, at a desk without
/// files and rows: over rows in a map, and then over those in a database in memory.
pub fn first_wrong<R: Threads + Sync>(
    rt: &R,
    alloc: Global,
    steps: &[Step],
) -> Result<Option<usize>, KeepFault> {
    let mut files = SureFiles::new(alloc);
    let mut map = SureKeeper::new(alloc);
    if let Some(place) = first_wrong_of(rt, alloc, &mut files, &mut map, steps)? {
        return Ok(Some(place));
    }
    let mut others = SureFiles::new(alloc);
    let mut database = SqlKeeper::in_memory(alloc)?;
    Ok(first_wrong_of(rt, alloc, &mut others, &mut database, steps)?)
}
