//! Calls of the desk over files and a sink in memory.

use mb_desk::{Status, desk};
use mb_outside::{Files, Gate, MemFiles, MemSink, NoGate, SureKeeper};
use std::alloc::{AllocError, Global};
use std::test::Fail;
use std::thread::Threads;

/// Names and bodies of files.
pub type Bodies = &'static [(&'static str, &'static [u8])];

/// What is called, and what is wanted of it.
#[derive(Clone, Copy)]
pub struct Case {
    words: &'static [&'static str],
    files: Bodies,
    failing_reads: &'static [u32],
    room: u32,
    failing_puts: &'static [u32],
    status: Status,
    output: &'static [u8],
}

impl Case {
    /// These words over these files, which don't fail, into a sink of ample room.
    pub fn new(
        words: &'static [&'static str],
        files: Bodies,
        status: Status,
        output: &'static [u8],
    ) -> Case {
        Case {
            words,
            files,
            failing_reads: &[],
            room: 1000,
            failing_puts: &[],
            status,
            output,
        }
    }

    /// The same where these reads fail, counted from 1.
    pub fn with_failing_reads(mut self, reads: &'static [u32]) -> Case {
        self.failing_reads = reads;
        self
    }

    /// The same into a sink that has room for so many bytes, and whose listed puts fail.
    pub fn with_sink(mut self, room: u32, failing_puts: &'static [u32]) -> Case {
        self.room = room;
        self.failing_puts = failing_puts;
        self
    }
}

/// The numbers of these reads among all calls, where so many writes come before them.
fn calls_of(alloc: Global, writes: u32, reads: &[u32]) -> Result<Vec<u32>, AllocError> {
    reads
        .iter()
        .map(|read| writes.saturating_add(*read))
        .collect(alloc)
}

/// Files that hold these, and whose listed reads fail. The writes that put them there are calls
/// too.
fn files_of(
    alloc: Global,
    bodies: &[(&str, &[u8])],
    failing_reads: &[u32],
) -> Result<MemFiles, Fail> {
    let failing = calls_of(alloc, u32::try_from(bodies.len())?, failing_reads)?;
    let mut files = MemFiles::try_new(alloc, failing.as_slice())?;
    for (name, body) in bodies {
        put_file(&mut files, name, body)?;
    }
    Ok(files)
}

/// Calls the desk with these words.
fn call<R: Threads + Sync, G: Gate + Sync>(
    rt: &R,
    alloc: Global,
    words: &[&str],
    files: &mut MemFiles,
    out: &mut MemSink,
    gate: &G,
) -> Result<Status, Fail> {
    let mut given = Vec::new(alloc);
    for word in words {
        given.push(String::from_str(alloc, word)?)?;
    }
    let mut keeper = SureKeeper::new(alloc);
    Ok(desk(rt, alloc, given.as_slice(), files, &mut keeper, out, gate))
}

/// Whether the desk answers a case as it is wanted.
fn is_answered<R: Threads + Sync>(rt: &R, alloc: Global, case: &Case) -> Result<bool, Fail> {
    let mut files = files_of(alloc, case.files, case.failing_reads)?;
    let mut out = MemSink::try_new(alloc, case.room, case.failing_puts)?;
    let status = call(rt, alloc, case.words, &mut files, &mut out, &NoGate)?;
    Ok(status == case.status && out.bytes() == case.output)
}

/// The place of the first case that is answered otherwise, from 0.
pub fn first_wrong<R: Threads + Sync>(
    rt: &R,
    alloc: Global,
    cases: &[Case],
) -> Result<Option<usize>, Fail> {
    for (place, case) in cases.iter().enumerate() {
        if !is_answered(rt, alloc, case)? {
            return Ok(Some(place));
        }
    }
    Ok(None)
}

/// Puts a body under a name.
fn put_file(files: &mut MemFiles, name: &str, body: &[u8]) -> Result<(), Fail> {
    match files.write(name, body) {
        Ok(()) => Ok(()),
        Err(_) => Err(Fail::from("a file was not written")),
    }
}

/// What `reach` puts for the texts of a matrix, moves and a table, and with this gate.
pub fn reach<R: Threads + Sync, G: Gate + Sync>(
    rt: &R,
    alloc: Global,
    gate: &G,
    matrix: &[u8],
    moves: &[u8],
    table: &[u8],
) -> Result<Vec<u8>, Fail> {
    let mut files = MemFiles::try_new(alloc, &[])?;
    put_file(&mut files, "m.mat", matrix)?;
    put_file(&mut files, "m.mar", moves)?;
    put_file(&mut files, "m.tab", table)?;
    let mut out = MemSink::try_new(alloc, 1_000_000, &[])?;
    let words = ["reach", "m.mat", "m.mar", "m.tab"];
    call(rt, alloc, &words, &mut files, &mut out, gate)?;
    Ok(Vec::from_slice(alloc, out.bytes())?)
}
