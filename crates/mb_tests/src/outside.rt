//! The adapters over the real files and standard output, a writer that takes nothing, and keepers.

use mb_outside::{
    DiskFiles, FileFault, Files, KeepFault, Keeper, MemKeeper, Row, Sink, StdSink, StuckWriter,
    SureKeeper, write_whole,
};
use std::alloc::Global;
use std::test::Fail;

const NAME: &str = "mb_tests.written";

// A file that was written is there with its bytes; a name that isn't there is none; a folder in a
// file's place, and a path through a file, are faults.
#[test]
fn files_on_the_disk(rt: HostRuntime) -> Result<(), Fail> {
    let mut files = DiskFiles::new(&rt);
    assert!(rt; files.write(NAME, b"1 4\n1 -1 -1 1\n").is_ok());
    let body = files.read(rt.alloc(), NAME)?.ok_or("the file is there")?;
    assert_eq!(rt; body.as_slice(), b"1 4\n1 -1 -1 1\n".as_slice());
    assert!(rt; files.write(NAME, b"").is_ok());
    let body = files.read(rt.alloc(), NAME)?.ok_or("the file is there")?;
    assert!(rt; body.is_empty());
    assert!(rt; matches!(files.read(rt.alloc(), "mb_tests.none"), Ok(None)));
    assert!(rt; matches!(files.read(rt.alloc(), "mb_tests.none/x"), Ok(None)));
    assert!(rt; matches!(files.read(rt.alloc(), "/"), Err(FileFault::Failed)));
    assert!(rt;
        matches!(
            files.read(rt.alloc(), "mb_tests.written/x"),
            Err(FileFault::Failed)
        )
    );
    assert!(rt; matches!(files.write("/", b"x"), Err(FileFault::Failed)));
    std::fs::remove_file(&rt, NAME)?;
    Ok(())
}

// A put to standard output is taken whole.
#[test]
fn standard_output(rt: HostRuntime) -> Result<(), Fail> {
    let mut out = StdSink::new(&rt);
    assert!(rt; out.put(b"").is_ok());
    assert!(rt; out.put(b"put whole\n").is_ok());
    Ok(())
}

// A writer that takes nothing of a piece is a fault, at once; of an empty piece nothing is to be
// taken.
#[test]
fn a_writer_that_takes_nothing(rt: HostRuntime) -> Result<(), Fail> {
    assert!(rt; write_whole(&mut StuckWriter, b"x").is_err());
    assert!(rt; write_whole(&mut StuckWriter, b"").is_ok());
    Ok(())
}

/// Puts a body under a name of kind 1, and answers whether it was added.
fn adds<K: Keeper>(alloc: Global, keeper: &mut K, name: &str, body: &[u8]) -> bool {
    matches!(keeper.put(alloc, 1, name, body), Ok(None))
}

/// Whether a put of another body under a name is answered with the body that is kept.
fn keeps<K: Keeper>(alloc: Global, keeper: &mut K, name: &str, body: &[u8]) -> bool {
    match keeper.put(alloc, 1, name, b"another") {
        Ok(Some(kept)) => kept.as_slice() == body,
        _ => false,
    }
}

/// Whether this body is found under a kind and a name.
fn finds<K: Keeper>(alloc: Global, keeper: &mut K, kind: u8, name: &str, body: &[u8]) -> bool {
    match keeper.get(alloc, kind, name) {
        Ok(Some(kept)) => kept.as_slice() == body,
        _ => false,
    }
}

/// Whether the names of a kind are these two.
fn lists_two<K: Keeper>(alloc: Global, keeper: &mut K, kind: u8, one: &str, two: &str) -> bool {
    match keeper.names(alloc, kind) {
        Ok(names) => match names.as_slice() {
            [first, second] => first.as_str() == one && second.as_str() == two,
            _ => false,
        },
        Err(_) => false,
    }
}

/// Makes the rows one, of kind 2, and answers whether they were replaced.
fn replaces<K: Keeper>(alloc: Global, keeper: &mut K, name: &str) -> Result<bool, Fail> {
    let row = Row {
        kind: 2,
        name: String::from_str(alloc, name)?,
        body: Vec::from_slice(alloc, b"z")?,
    };
    Ok(keeper.replace_all(&[row]).is_ok())
}

/// Whether a keeper without rows adds two, keeps the first body of each and lists them in order.
fn takes_rows<K: Keeper>(alloc: Global, keeper: &mut K) -> bool {
    adds(alloc, keeper, "b", b"x")
        && adds(alloc, keeper, "a", b"y")
        && keeps(alloc, keeper, "b", b"x")
        && finds(alloc, keeper, 1, "b", b"x")
        && lists_two(alloc, keeper, 1, "a", "b")
        && matches!(keeper.get(alloc, 2, "b"), Ok(None))
}

/// Whether a row of these two is taken out once, and a replacement is then all that there is.
fn loses_rows<K: Keeper>(alloc: Global, keeper: &mut K) -> Result<bool, Fail> {
    let taken = matches!(keeper.remove(1, "b"), Ok(true));
    let gone = matches!(keeper.remove(1, "b"), Ok(false));
    let replaced = replaces(alloc, keeper, "c")?;
    Ok(
        taken
            && gone
            && replaced
            && matches!(keeper.get(alloc, 1, "a"), Ok(None))
            && finds(alloc, keeper, 2, "c", b"z"),
    )
}

/// Whether the calls 2, 3, 5 and 6 of a keeper without rows fail, and leave its row.
fn fails_as_listed<K: Keeper>(alloc: Global, keeper: &mut K) -> Result<bool, Fail> {
    let added = adds(alloc, keeper, "a", b"x");
    let removed = matches!(keeper.remove(1, "a"), Err(KeepFault::Failed));
    let replaced = replaces(alloc, keeper, "c")?;
    Ok(
        added
            && removed
            && !replaced
            && finds(alloc, keeper, 1, "a", b"x")
            && matches!(keeper.get(alloc, 1, "a"), Err(KeepFault::Failed))
            && matches!(keeper.names(alloc, 1), Err(KeepFault::Failed))
            && keeps(alloc, keeper, "a", b"x"),
    )
}

// A keeper is a map from kind and name; its listed calls fail, whatever they are, and leave its
// rows.
#[test]
fn keepers(rt: HostRuntime) -> Result<(), Fail> {
    let alloc = rt.alloc();
    let mut keeper = SureKeeper::new(alloc);
    assert!(rt; takes_rows(alloc, &mut keeper));
    assert!(rt; loses_rows(alloc, &mut keeper)?);
    let mut failing = MemKeeper::try_new(alloc, &[2, 3, 5, 6])?;
    assert!(rt; fails_as_listed(alloc, &mut failing)?);
    Ok(())
}
