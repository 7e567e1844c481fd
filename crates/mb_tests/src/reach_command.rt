//! `reach`, with failing files and sinks.

use crate::run::{Bodies, Case, first_wrong, reach};
use mb_desk::Status;
use mb_outside::NoGate;
use std::alloc::{AllocError, Global};
use std::test::Fail;

const M22: &[u8] = b"4 4\n1 1 0 0\n0 0 1 1\n1 0 1 0\n0 1 0 1\n";

const MOVE: &[u8] = b"1 4\n1 -1 -1 1\n";

const ALL: Bodies = &[
    ("m.mat", M22),
    ("m.mar", MOVE),
    ("m.tab", b"1 4\n3 1 1 3\n"),
];

const WORDS: &[&str] = &["reach", "m.mat", "m.mar", "m.tab"];

const RINGS: &[u8] =
    b"tables 5\nring 0 1\n3 1 1 3\nring 1 2\n2 2 2 2\n4 0 0 4\nring 2 1\n1 3 3 1\nring 3 1\n0 4 4 0\n";

/// `reach m.mat m.mar m.tab --limit ..` over all three files.
fn limited(words: &'static [&'static str], status: Status, output: &'static [u8]) -> Case {
    Case::new(words, ALL, status, output)
}

/// `reach m.mat m.mar m.tab` over these files.
fn over(files: Bodies, status: Status, output: &'static [u8]) -> Case {
    Case::new(WORDS, files, status, output)
}

const LIMIT_FOUR: &[&str] = &["reach", "m.mat", "m.mar", "m.tab", "--limit", "4"];

const LIMIT_FIVE: &[&str] = &["reach", "m.mat", "m.mar", "m.tab", "--limit", "5"];

// By hand, from a worked example: the rings of a 2 x 2 table.
#[test]
fn rings_and_refusals(rt: HostRuntime) -> Result<(), Fail> {
    let cases = [
        over(ALL, Status::Done, RINGS),
        limited(LIMIT_FIVE, Status::Done, RINGS),
        limited(LIMIT_FOUR, Status::Limit, b"refused TooLarge seen 5\n"),
        over(
            &[
                ("m.mat", M22),
                ("m.mar", b"0 4"),
                ("m.tab", b"1 4\n3 1 1 3"),
            ],
            Status::Done,
            b"tables 1\nring 0 1\n3 1 1 3\n",
        ),
        over(
            &[("m.mat", M22), ("m.mar", MOVE), ("m.tab", b"1 4\n3 1 1 -1")],
            Status::Refused,
            b"refused NotATable file 3\n",
        ),
        over(
            &[
                ("m.mat", b"1 2\n1 0"),
                ("m.mar", b"0 2"),
                ("m.tab", b"1 2\n0 0"),
            ],
            Status::Refused,
            b"refused ZeroColumn cell 1\n",
        ),
    ];
    assert_eq!(rt; first_wrong(&rt, rt.alloc(), &cases)?, None);
    Ok(())
}

// Three files are read, each once, so that a failing fourth read isn't met, nor a failing second
// put.
#[test]
fn faults(rt: HostRuntime) -> Result<(), Fail> {
    let cases = [
        over(ALL, Status::Outside, b"refused Outside\n").with_failing_reads(&[3]),
        over(ALL, Status::Done, RINGS)
            .with_failing_reads(&[4])
            .with_sink(1000, &[2]),
        limited(LIMIT_FOUR, Status::Limit, b"refused TooLarge seen 5\n").with_sink(1000, &[2]),
        over(
            &[("m.mat", b"x"), ("m.mar", b"x"), ("m.tab", b"x")],
            Status::Outside,
            b"refused Outside\n",
        )
        .with_failing_reads(&[3]),
        over(ALL, Status::Outside, b"tables 5\nring").with_sink(13, &[]),
        over(ALL, Status::Outside, b"").with_sink(1000, &[1]),
    ];
    assert_eq!(rt; first_wrong(&rt, rt.alloc(), &cases)?, None);
    Ok(())
}

/// `reach m.mat m.mar m.tab` and these words over all three files are no request.
fn no_request(words: &'static [&'static str]) -> Case {
    limited(words, Status::Words, b"refused Words\n")
}

// By hand: an option has one value from 1 to 100,000, without leading zeros, and is given at most
// once.
#[test]
fn words(rt: HostRuntime) -> Result<(), Fail> {
    let cases = [
        no_request(&["reach", "m.mat", "m.mar"]),
        no_request(&["reach", "m.mat", "m.mar", "m.tab", "m.tab"]),
        no_request(&["reach", "m.mat", "m.mar", "m.tab", "--limit"]),
        no_request(&["reach", "m.mat", "m.mar", "m.tab", "--limit", "0"]),
        no_request(&["reach", "m.mat", "m.mar", "m.tab", "--limit", "100001"]),
        no_request(&["reach", "m.mat", "m.mar", "m.tab", "--limit", "05"]),
        no_request(&["reach", "m.mat", "m.mar", "m.tab", "--limit", "5 "]),
        no_request(&["reach", "m.mat", "m.mar", "m.tab", "--Limit", "5"]),
        no_request(&[
            "reach", "m.mat", "m.mar", "m.tab", "--limit", "5", "--limit", "5",
        ]),
        no_request(&["reach", "--limit", "5", "m.mat", "m.mar", "m.tab"]),
        limited(
            &["reach", "m.mat", "m.mar", "m.tab", "--limit", "100000"],
            Status::Done,
            RINGS,
        ),
    ];
    assert_eq!(rt; first_wrong(&rt, rt.alloc(), &cases)?, None);
    Ok(())
}

/// The swaps of two rows and two columns of a square table of up to 9 rows, as a move file.
fn swaps(alloc: Global, size: u32) -> Result<Vec<u8>, AllocError> {
    let mut moves = Vec::new(alloc);
    let mut count = 0u32;
    for code in 0..size.saturating_pow(4) {
        let (i, k) = (code % size.max(1), code / size.max(1) % size.max(1));
        let rest = code / size.max(1) / size.max(1);
        let (j, l) = (rest % size.max(1), rest / size.max(1) % size.max(1));
        if i < k && j < l {
            count = count.saturating_add(1);
            append_swap(&mut moves, size, [i, k, j, l])?;
        }
    }
    let cells = size.saturating_mul(size);
    let mut text = format!(in alloc; "{count} {cells}\n")?.into_bytes();
    text.extend_from_slice(moves.as_slice())?;
    Ok(text)
}

/// An entry of the swap of rows i, k and columns j, l: 1 on the diagonal, and -1 off it.
fn swap_entry(row: u32, column: u32, [i, k, j, l]: [u32; 4]) -> &'static [u8] {
    match (row == i, row == k, column == j, column == l) {
        (true, _, true, _) | (_, true, _, true) => b"1 ",
        (true, _, _, true) | (_, true, true, _) => b"-1 ",
        _ => b"0 ",
    }
}

/// The line of a swap, row by row.
fn append_swap(text: &mut Vec<u8>, size: u32, places: [u32; 4]) -> Result<(), AllocError> {
    for cell in 0..size.saturating_mul(size) {
        let (row, column) = (cell / size.max(1), cell % size.max(1));
        text.extend_from_slice(swap_entry(row, column, places))?;
    }
    text.extend_from_slice(b"\n")
}

/// Independence in a 4 x 4 table: row sums, then column sums.
const M44: &[u8] = b"8 16
1 1 1 1 0 0 0 0 0 0 0 0 0 0 0 0
0 0 0 0 1 1 1 1 0 0 0 0 0 0 0 0
0 0 0 0 0 0 0 0 1 1 1 1 0 0 0 0
0 0 0 0 0 0 0 0 0 0 0 0 1 1 1 1
1 0 0 0 1 0 0 0 1 0 0 0 1 0 0 0
0 1 0 0 0 1 0 0 0 1 0 0 0 1 0 0
0 0 1 0 0 0 1 0 0 0 1 0 0 0 1 0
0 0 0 1 0 0 0 1 0 0 0 1 0 0 0 1
";

// From other programs: 4 x 4 tables with all margins 3 are 2,008, six of them one swap away.
#[test]
fn a_larger_fiber(rt: HostRuntime) -> Result<(), Fail> {
    let moves = swaps(rt.alloc(), 4)?;
    let table = b"1 16\n3 0 0 0 0 3 0 0 0 0 3 0 0 0 0 3\n";
    let text = reach(&rt, rt.alloc(), &NoGate, M44, moves.as_slice(), table)?;
    let begins: &[u8] =
        b"tables 2008\nring 0 1\n3 0 0 0 0 3 0 0 0 0 3 0 0 0 0 3\nring 1 6\n2 0 0 1 0 3 ";
    assert!(rt; text.as_slice().starts_with(begins));
    Ok(())
}
