//! A keeper over a real database file.

use crate::steps::{STEPS, first_wrong};
use mb_keeper::FileKeeper;
use mb_outside::{KeepFault, Keeper};
use std::alloc::AllocError;
use std::fs;
use std::test::Fail;

/// The keeper of the file at a path.
fn keeper_at<'a>(rt: &'a HostRuntime, path: &str) -> Result<FileKeeper<'a>, AllocError> {
    Ok(FileKeeper::at(rt, String::from_str(rt.alloc(), path)?))
}

/// Whether there is a file at a path.
fn is_there(rt: &HostRuntime, path: &str) -> bool {
    fs::symlink_metadata(rt, path).is_ok()
}

/// Puts a row of kind 1 by a keeper of its own, which is closed, and answers whether it was added.
fn adds(rt: &HostRuntime, path: &str, name: &str) -> Result<bool, AllocError> {
    let mut keeper = keeper_at(rt, path)?;
    let added = matches!(keeper.put(rt.alloc(), 1, name, name.as_bytes()), Ok(None));
    keeper.close();
    Ok(added)
}

/// Whether a keeper of its own finds the row of kind 1.
fn finds(rt: &HostRuntime, path: &str, name: &str) -> Result<bool, AllocError> {
    let mut keeper = keeper_at(rt, path)?;
    let found = matches!(keeper.get(rt.alloc(), 1, name), Ok(Some(_)));
    keeper.close();
    Ok(found)
}

// The calls are those of a map. A keeper that isn't called makes no file, and one that is closed
// leaves one file, with its rows.
#[test]
fn the_calls_and_the_file_left(rt: HostRuntime) -> Result<(), Fail> {
    const PATH: &str = "mb_record_tests.calls.db";
    const LOG: &str = "mb_record_tests.calls.db-wal";
    keeper_at(&rt, PATH)?.close();
    assert!(rt; !is_there(&rt, PATH));
    let mut keeper = keeper_at(&rt, PATH)?;
    assert_eq!(rt; first_wrong(rt.alloc(), &mut keeper, &STEPS)?, None);
    assert!(rt; is_there(&rt, LOG));
    keeper.close();
    assert!(rt; is_there(&rt, PATH));
    assert!(rt; !is_there(&rt, LOG));
    fs::remove_file(&rt, PATH)?;
    Ok(())
}

// Twenty keepers, one after the other, each of which adds a row: all are there, in one file.
#[test]
fn a_file_of_many_runs(rt: HostRuntime) -> Result<(), Fail> {
    const PATH: &str = "mb_record_tests.runs.db";
    for run in 0..20u32 {
        let name = format!(in rt.alloc(); "row-{run}")?;
        assert!(rt; adds(&rt, PATH, name.as_str())?);
    }
    assert!(rt; finds(&rt, PATH, "row-0")?);
    assert!(rt; finds(&rt, PATH, "row-19")?);
    assert!(rt; fs::symlink_metadata(&rt, PATH)?.len() < 65_536);
    assert!(rt; !is_there(&rt, "mb_record_tests.runs.db-wal"));
    fs::remove_file(&rt, PATH)?;
    Ok(())
}

// While one keeper has the file open, each call of another is a fault, and changes nothing.
#[test]
fn two_keepers_of_one_file(rt: HostRuntime) -> Result<(), Fail> {
    const PATH: &str = "mb_record_tests.two.db";
    let mut first = keeper_at(&rt, PATH)?;
    assert!(rt; matches!(first.put(rt.alloc(), 1, "a", b"x"), Ok(None)));
    let mut second = keeper_at(&rt, PATH)?;
    assert!(rt; matches!(second.put(rt.alloc(), 1, "b", b"y"), Err(KeepFault::Failed)));
    assert!(rt; matches!(second.get(rt.alloc(), 1, "a"), Err(KeepFault::Failed)));
    assert!(rt; matches!(first.get(rt.alloc(), 1, "b"), Ok(None)));
    first.close();
    assert!(rt; matches!(second.get(rt.alloc(), 1, "a"), Ok(Some(_))));
    assert!(rt; matches!(second.get(rt.alloc(), 1, "b"), Ok(None)));
    second.close();
    fs::remove_file(&rt, PATH)?;
    Ok(())
}

// A keeper that is dropped without a close leaves its rows to the next.
#[test]
fn a_keeper_that_is_not_closed(rt: HostRuntime) -> Result<(), Fail> {
    const PATH: &str = "mb_record_tests.dropped.db";
    let mut keeper = keeper_at(&rt, PATH)?;
    assert!(rt; matches!(keeper.put(rt.alloc(), 1, "a", b"x"), Ok(None)));
    drop(keeper);
    assert!(rt; finds(&rt, PATH, "a")?);
    assert!(rt; !is_there(&rt, "mb_record_tests.dropped.db-wal"));
    fs::remove_file(&rt, PATH)?;
    Ok(())
}

// A path that can't be opened is a fault of each call: a folder, a path through no folder.
#[test]
fn files_that_cannot_be_opened(rt: HostRuntime) -> Result<(), Fail> {
    let mut folder = keeper_at(&rt, "/")?;
    assert!(rt; matches!(folder.names(rt.alloc(), 1), Err(KeepFault::Failed)));
    folder.close();
    let mut nowhere = keeper_at(&rt, "mb_record_tests.none/a.db")?;
    assert!(rt; matches!(nowhere.remove(1, "a"), Err(KeepFault::Failed)));
    nowhere.close();
    Ok(())
}
