//! The program `markov_desk`: the desk over the real files, a database and standard output.
#![tactic(auto)]

use mb_desk::{Status, desk};
use mb_keeper::FileKeeper;
use mb_outside::{DiskFiles, NoGate, StdSink};
use std::io::{Error, ErrorKind, Result};
use std::process::ExitCode;
use std::thread::Threads;

/// The words of the command line, without the program's name.
fn command_words(rt: &HostRuntime) -> Result<Vec<String>> {
    let mut words = Vec::new(rt.alloc());
    for word in std::env::args(rt)?.skip(1) {
        words.push(word)?;
    }
    Ok(words)
}

/// The database in the current folder.
fn database(rt: &HostRuntime) -> Result<FileKeeper<'_>> {
    let path = String::from_str(rt.alloc(), "markov_desk.db")?;
    Ok(FileKeeper::at(rt, path))
}

/// The status where the words can't be had, which puts nothing.
fn status_of(error: &Error) -> Status {
    match error.kind() {
        ErrorKind::OutOfMemory => Status::Memory,
        _ => Status::Words,
    }
}

/// Does the work of the words over the real files, the database and standard output.
fn run<R: Threads + Sync>(rt: &HostRuntime, threads: &R) -> Result<Status> {
    let words = command_words(rt)?;
    let mut files = DiskFiles::new(rt);
    let mut keeper = database(rt)?;
    let mut out = StdSink::new(rt);
    let status = desk(
        threads,
        rt.alloc(),
        words.as_slice(),
        &mut files,
        &mut keeper,
        &mut out,
        &NoGate,
    );
    keeper.close();
    Ok(status)
}

fn main(rt: HostRuntime) -> ExitCode {
    let status = match run(&rt, &rt) {
        Ok(status) => status,
        Err(error) => status_of(&error),
    };
    ExitCode::from(status as u8)
}
