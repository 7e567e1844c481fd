//! `moves`, with failing files and sinks.

use crate::run::{Bodies, Case, first_wrong};
use mb_desk::Status;
use std::test::Fail;

const M22: &[u8] = b"4 4\n1 1 0 0\n0 0 1 1\n1 0 1 0\n0 1 0 1\n";

const MOVE: &[u8] = b"1 4\n1 -1 -1 1\n";

const BOTH: Bodies = &[("m.mat", M22), ("m.mar", MOVE)];

/// `moves m.mat m.mar` over these files.
fn over(files: Bodies, status: Status, output: &'static [u8]) -> Case {
    Case::new(&["moves", "m.mat", "m.mar"], files, status, output)
}

/// `moves m.mat m.mar` over the matrix and these moves, which are refused with a line.
fn refused(files: Bodies, line: &'static [u8]) -> Case {
    over(files, Status::Refused, line)
}

// By hand: the margins of each row of the move file under the matrix, and the first refusal in the
// order of work.
#[test]
fn answers_and_refusals(rt: HostRuntime) -> Result<(), Fail> {
    let cases = [
        over(BOTH, Status::Done, b"moves 1\n"),
        over(
            &[("m.mat", M22), ("m.mar", b"0 4")],
            Status::Done,
            b"moves 0\n",
        ),
        over(
            &[("m.mat", M22), ("m.mar", b"1\t4\x0b\r\n+1 -01 -1\x0c1")],
            Status::Done,
            b"moves 1\n",
        ),
        refused(
            &[("m.mat", M22), ("m.mar", b"2 4\n1 -1 -1 1\n1 -1 1 -1\n")],
            b"refused NotAMove row 2\n",
        ),
        refused(
            &[("m.mat", M22), ("m.mar", b"1 3\n1 -1 0\n")],
            b"refused WidthDiffers matrix 4 moves 3\n",
        ),
        refused(&[("m.mat", M22)], b"refused NoFile file 2\n"),
        refused(&[("m.mar", b"x")], b"refused NoFile file 1\n"),
        refused(
            &[("m.mat", b"4 4\n1 1 x"), ("m.mar", b"")],
            b"refused BadNumber file 1 token 5\n",
        ),
        refused(
            &[("m.mat", M22), ("m.mar", b"1 4\n1 -1 -1")],
            b"refused TooFew file 2 found 3 wanted 4\n",
        ),
    ];
    assert_eq!(rt; first_wrong(&rt, rt.alloc(), &cases)?, None);
    Ok(())
}

/// These words over both files are no request.
fn no_request(words: &'static [&'static str]) -> Case {
    Case::new(words, BOTH, Status::Words, b"refused Words\n")
}

// By hand: two files and no option. The name of a file is the word as it stands, with a blank at
// its end too.
#[test]
fn words(rt: HostRuntime) -> Result<(), Fail> {
    let cases = [
        no_request(&["moves", "m.mat"]),
        no_request(&["Moves", "m.mat", "m.mar"]),
        no_request(&[]),
        no_request(&["moves", "m.mat", "m.mar", "--limit", "5"]),
        Case::new(
            &["moves", "m.mat ", "m.mar"],
            &[("m.mat ", M22), ("m.mar", MOVE)],
            Status::Done,
            b"moves 1\n",
        ),
        over(
            &[("m.mat ", M22), ("m.mar", MOVE)],
            Status::Refused,
            b"refused NoFile file 1\n",
        ),
    ];
    assert_eq!(rt; first_wrong(&rt, rt.alloc(), &cases)?, None);
    Ok(())
}

// A failing read answers a fault, before any text is judged, and one that isn't made does nothing.
// One put is made, so that a failing second put isn't met. A put that fails takes nothing where it
// is listed, and as much as the sink has room for where it is too long.
#[test]
fn faults(rt: HostRuntime) -> Result<(), Fail> {
    let done = over(BOTH, Status::Done, b"moves 1\n");
    let failed = over(BOTH, Status::Outside, b"refused Outside\n");
    let nothing_put = over(BOTH, Status::Outside, b"");
    let no_files = over(&[], Status::Outside, b"refused Outside\n");
    let no_texts = over(
        &[("m.mat", b"x"), ("m.mar", b"y")],
        Status::Outside,
        b"refused Outside\n",
    );
    let cases = [
        failed.with_failing_reads(&[1]),
        failed.with_failing_reads(&[2]),
        done.with_failing_reads(&[3]).with_sink(1000, &[2]),
        no_files.with_failing_reads(&[1]),
        no_texts.with_failing_reads(&[1]),
        no_texts.with_failing_reads(&[2]),
        done.with_sink(1000, &[2]),
        refused(&[("m.mat", M22)], b"refused NoFile file 2\n").with_sink(1000, &[2]),
        nothing_put.with_sink(1000, &[1]),
        nothing_put.with_failing_reads(&[2]).with_sink(1000, &[1]),
        done.with_sink(8, &[]),
        over(BOTH, Status::Outside, b"mov").with_sink(3, &[]),
        over(&[], Status::Outside, b"refused N").with_sink(9, &[]),
    ];
    assert_eq!(rt; first_wrong(&rt, rt.alloc(), &cases)?, None);
    Ok(())
}
