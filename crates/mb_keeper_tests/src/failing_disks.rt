//! A keeper over files in memory, whose machine stops at some call of a disk.
ghost use Rattle.std.specs.Prelude.{IsTrue};

use mb_keeper::SqlKeeper;
use mb_outside::{KeepFault, Keeper};
use sqlite::{Connection, FileStore, Files, Options};
use sqlite_disk::{Crash, Disk, Fuse, Memory};
use std::alloc::Global;
use std::test::Fail;

/// A keeper over these files.
fn open<D: Disk + Drop>(alloc: Global, files: Files<D>) -> Option<SqlKeeper<FileStore<D>>>
    requires { IsTrue (D.Disk.is_usable files.log) × IsTrue (D.Disk.is_usable files.db) }
{
    match Connection::open_files(alloc, files, Options::new(1)) {
        Ok(connection) => {
            if !connection.is_autocommit() {
                return None;
            }
            SqlKeeper::over(connection).ok()
        }
        Err(_) => None,
    }
}

/// The files of a keeper once its machine has stopped and come back.
fn come_back<D: Crash + Drop>(keeper: SqlKeeper<FileStore<D>>) -> Files<D>
    ensures { IsTrue (D.Disk.is_usable result.log) × IsTrue (D.Disk.is_usable result.db) }
{
    let Files { mut log, mut db } = keeper.into_connection().into_store().close();
    log.crash();
    db.crash();
    Files { log, db }
}

/// Files in which one row is kept.
fn files_with_one(alloc: Global) -> Option<Files<Memory>> {
    let empty = Files {
        log: Memory::new(alloc),
        db: Memory::new(alloc),
    };
    let mut keeper = open(alloc, empty)?;
    match keeper.put(alloc, 1, "first", b"1") {
        Ok(_) => Some(come_back(keeper)),
        Err(_) => None,
    }
}

/// Whether a row is there, where the keeper answers.
fn has<K: Keeper>(alloc: Global, keeper: &mut K, name: &str) -> Option<bool> {
    match keeper.get(alloc, 1, name) {
        Ok(found) => Some(found.is_some()),
        Err(_) => None,
    }
}

/// Whether the files open again with the first row, and with the second where it has to be there.
fn is_whole<D: Crash + Drop>(
    alloc: Global,
    keeper: SqlKeeper<FileStore<D>>,
    with_second: bool,
) -> bool {
    let Some(mut again) = open(alloc, come_back(keeper)) else {
        return false;
    };
    has(alloc, &mut again, "first") == Some(true)
        && matches!(has(alloc, &mut again, "second"), Some(second) if second || !with_second)
}

/// How a run over disks that stop after so many calls has ended.
#[derive(Clone, Copy, PartialEq, Eq)]
enum Ended {
    /// The files were not opened.
    Unopened,
    /// The put was refused, and the files are whole.
    CutOff,
    /// The put was answered, and its row is there.
    Answered,
    /// A row is lost.
    Lost,
}

/// Files whose disks stop after so many calls.
fn stopping(files: Files<Memory>, log_calls: u64, db_calls: u64) -> Files<Fuse<Memory>> {
    Files {
        log: Fuse::new(files.log, log_calls),
        db: Fuse::new(files.db, db_calls),
    }
}

/// Puts a second row over disks that stop after so many calls, and lets the machine come back.
fn put_and_stop(alloc: Global, log_calls: u64, db_calls: u64) -> Option<Ended> {
    let files = stopping(files_with_one(alloc)?, log_calls, db_calls);
    if !files.may_be_used() {
        return None;
    }
    let Some(mut keeper) = open(alloc, files) else {
        return Some(Ended::Unopened);
    };
    let (ended, is_answered) = match keeper.put(alloc, 1, "second", b"2") {
        Ok(_) => (Ended::Answered, true),
        Err(KeepFault::Failed) => (Ended::CutOff, false),
        Err(KeepFault::OutOfMemory) => return None,
    };
    if is_whole(alloc, keeper, is_answered) {
        Some(ended)
    } else {
        Some(Ended::Lost)
    }
}

/// How many runs were cut off within the put, until one was answered; None where a row was lost.
fn runs_cut_off(alloc: Global, is_log: bool) -> Option<u32> {
    let mut cut = 0u32;
    for calls in 0..4000u64 {
        let ended = if is_log {
            put_and_stop(alloc, calls, u64::MAX)?
        } else {
            put_and_stop(alloc, u64::MAX, calls)?
        };
        match ended {
            Ended::Unopened => {}
            Ended::CutOff => cut = cut.saturating_add(1),
            Ended::Answered => return Some(cut),
            Ended::Lost => return None,
        }
    }
    None
}

// A put that is cut off at any call of the log leaves the row before it, and one that is answered
// leaves both.
#[test]
fn a_log_that_stops(rt: HostRuntime) -> Result<(), Fail> {
    assert!(rt; matches!(runs_cut_off(rt.alloc(), true), Some(cut) if cut > 0));
    Ok(())
}

// The same with the calls of the database file, to which a put writes nothing.
#[test]
fn a_database_file_that_stops(rt: HostRuntime) -> Result<(), Fail> {
    assert!(rt; runs_cut_off(rt.alloc(), false).is_some());
    Ok(())
}
