//! A keeper over a database in memory.

use crate::steps::{STEPS, first_wrong};
use mb_keeper::SqlKeeper;
use mb_outside::Keeper;
use std::alloc::{AllocError, Global};
use std::test::Fail;

/// Each byte so many times, in ascending order.
fn all_bytes(alloc: Global, times: usize) -> Result<Vec<u8>, AllocError> {
    let mut bytes = Vec::new(alloc);
    for byte in 0..=255u8 {
        for _ in 0..times {
            bytes.push(byte)?;
        }
    }
    Ok(bytes)
}

/// Whether a body is kept byte by byte.
fn is_kept<K: Keeper>(alloc: Global, keeper: &mut K, name: &str, body: &[u8]) -> bool {
    if !matches!(keeper.put(alloc, 1, name, body), Ok(None)) {
        return false;
    }
    match keeper.get(alloc, 1, name) {
        Ok(Some(kept)) => kept.as_slice() == body,
        _ => false,
    }
}

// Each call is answered as that of a map is.
#[test]
fn the_calls_are_those_of_a_map(rt: HostRuntime) -> Result<(), Fail> {
    let mut keeper = SqlKeeper::in_memory(rt.alloc())?;
    assert_eq!(rt; first_wrong(rt.alloc(), &mut keeper, &STEPS)?, None);
    Ok(())
}

// A body may have any bytes, and be longer than a page of the database.
#[test]
fn bodies_of_all_bytes(rt: HostRuntime) -> Result<(), Fail> {
    let alloc = rt.alloc();
    let mut keeper = SqlKeeper::in_memory(alloc)?;
    let short = all_bytes(alloc, 1)?;
    let long = all_bytes(alloc, 100)?;
    assert!(rt; is_kept(alloc, &mut keeper, "short", short.as_slice()));
    assert!(rt; is_kept(alloc, &mut keeper, "long", long.as_slice()));
    Ok(())
}
