//! `generate`, and words that are none.

use crate::run::{Case, first_wrong};
use mb_desk::Status;
use std::test::Fail;

/// No words, and more than none.
const REFUSED: &[u8] = b"refused Words\n";

/// A call that neither reads nor stores.
fn call(words: &'static [&'static str], status: Status, output: &'static [u8]) -> Case {
    Case::new(words, &[], status, output)
}

// Worked, and by hand: a seed's digits in base 3 are the counts, row by row, the least significant
// first. The table of two counts 2 and 1 on the diagonal has one other in its fiber, of weight 2;
// that of 2 and 2 has those of weights 4 and 1.
#[test]
fn tables_of_seeds(rt: HostRuntime) -> Result<(), Fail> {
    let cases = [
        call(
            &["generate", "0"],
            Status::Done,
            b"table 0 0 0 0 0 0 0 0 0 0 0 0 0 0 0 0\ntables 1\nfraction 1/1\ndecimals 1.000000\n",
        ),
        call(
            &["generate", "245"],
            Status::Done,
            b"table 2 0 0 0 0 1 0 0 0 0 0 0 0 0 0 0\ntables 2\nfraction 1/3\ndecimals 0.333333\n",
        ),
        call(
            &["generate", "488"],
            Status::Done,
            b"table 2 0 0 0 0 2 0 0 0 0 0 0 0 0 0 0\ntables 3\nfraction 2/6\ndecimals 0.333333\n",
        ),
        call(
            &["generate", "328"],
            Status::Done,
            b"table 1 1 0 0 1 1 0 0 0 0 0 0 0 0 0 0\ntables 3\nfraction 6/6\ndecimals 1.000000\n",
        ),
        call(
            &["generate", "21523360"],
            Status::Done,
            b"table 1 1 1 1 1 1 1 1 1 1 1 1 1 1 1 1\ntables 10147\nfraction 63063000/63063000\n\
            decimals 1.000000\n",
        ),
    ];
    assert!(rt; first_wrong(&rt, rt.alloc(), &cases)? == None);
    Ok(())
}

#[test]
fn words_that_are_no_seed(rt: HostRuntime) -> Result<(), Fail> {
    let cases = [
        call(&["generate"], Status::Words, REFUSED),
        call(&["generate", ""], Status::Words, REFUSED),
        call(&["generate", "007"], Status::Words, REFUSED),
        call(&["generate", "-1"], Status::Words, REFUSED),
        call(&["generate", "+1"], Status::Words, REFUSED),
        call(&["generate", "1 "], Status::Words, REFUSED),
        call(&["generate", "43046721"], Status::Words, REFUSED),
        call(
            &["generate", "99999999999999999999"],
            Status::Words,
            REFUSED,
        ),
        call(&["generate", "0", "0"], Status::Words, REFUSED),
        call(&["generate", "0", "--limit", "5"], Status::Words, REFUSED),
        call(&["generate", "0", "--workers"], Status::Words, REFUSED),
    ];
    assert!(rt; first_wrong(&rt, rt.alloc(), &cases)? == None);
    Ok(())
}

// A put that fails leaves a front of the answer.
#[test]
fn sinks_that_fail(rt: HostRuntime) -> Result<(), Fail> {
    let cases = [
        call(&["generate", "0"], Status::Outside, b"table 0 0").with_sink(9, &[]),
        call(&["generate", "007"], Status::Outside, b"refused W").with_sink(9, &[]),
    ];
    assert!(rt; first_wrong(&rt, rt.alloc(), &cases)? == None);
    Ok(())
}
