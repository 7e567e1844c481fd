//! `check`, with failing files and sinks.

use crate::run::{Bodies, Case, first_wrong};
use mb_desk::Status;
use std::test::Fail;

/// The matrix of one row `1 1`, its one move and two rules: by hand.
const TWO_CELLS: &[u8] = b"certificate 1
matrix 1 2
1 1
order grevlex
moves 1
1 -1
rules 2
0 1 0 > 0 0 1
1 0 0 > 0 0 1
starts 2
1 1 1 0
1 0 1
joins 0
paths 1
0 1 -1
end
";

/// The matrix of the one entry 1, no move, and two rules whose left sides share its margin's
/// symbol: by hand.
const ONE_CELL: &[u8] = b"certificate 1
matrix 1 1
1
order lex
moves 0
rules 2
1 0 > 0 1
2 0 > 0 2
starts 1
1 0 0
joins 1
0 1 1 0 0
paths 0
end
";

/// The same without its pair.
const NO_PAIR: &[u8] = b"certificate 1
matrix 1 1
1
order lex
moves 0
rules 2
1 0 > 0 1
2 0 > 0 2
starts 1
1 0 0
joins 0
paths 0
end
";

/// One rule, a start whose ends differ, and then no last line.
const CUT: &[u8] = b"certificate 1
matrix 1 1
1
order lex
moves 0
rules 1
1 0 > 0 1
starts 1
0 0
joins 0
paths 0
";

/// The same whole.
const NO_START: &[u8] = b"certificate 1
matrix 1 1
1
order lex
moves 0
rules 1
1 0 > 0 1
starts 1
0 0
joins 0
paths 0
end
";

const GOOD: Bodies = &[("a.cert", TWO_CELLS)];

const JOINS: &[u8] = b"joins rules 2 moves 1 pairs 0\n";

/// `check a.cert` over these files.
fn over(files: Bodies, status: Status, output: &'static [u8]) -> Case {
    Case::new(&["check", "a.cert"], files, status, output)
}

/// These words over a file that is right are no request.
fn no_request(words: &'static [&'static str]) -> Case {
    Case::new(words, GOOD, Status::Words, b"refused Words\n")
}

// By hand: the first wrong line of each, the form of the whole text before any line is judged, and
// one file without options.
#[test]
fn answers_and_refusals(rt: HostRuntime) -> Result<(), Fail> {
    let cases = [
        over(GOOD, Status::Done, JOINS),
        over(
            &[("a.cert", ONE_CELL)],
            Status::Done,
            b"joins rules 2 moves 0 pairs 1\n",
        ),
        over(
            &[("a.cert", NO_PAIR)],
            Status::Refused,
            b"refused Certificate line 12 reason PairMissing\n",
        ),
        over(
            &[("a.cert", CUT)],
            Status::Refused,
            b"refused Text file 1 line 12\n",
        ),
        over(
            &[("a.cert", NO_START)],
            Status::Refused,
            b"refused Certificate line 9 reason StartNotJoined\n",
        ),
        over(
            &[("a.cert", b"")],
            Status::Refused,
            b"refused Text file 1 line 1\n",
        ),
        over(&[], Status::Refused, b"refused NoFile file 1\n"),
        no_request(&["check"]),
        no_request(&["check", "a.cert", "a.cert"]),
        no_request(&["check", "a.cert", "--limit", "5"]),
        no_request(&["check", "-a.cert"]),
        no_request(&["Check", "a.cert"]),
    ];
    assert_eq!(rt; first_wrong(&rt, rt.alloc(), &cases)?, None);
    Ok(())
}

// One file is read, once, before its text is judged, and one put is made, so that a failing second
// read or put isn't met.
#[test]
fn faults(rt: HostRuntime) -> Result<(), Fail> {
    let done = over(GOOD, Status::Done, JOINS);
    let failed = over(GOOD, Status::Outside, b"refused Outside\n");
    let wrong: Bodies = &[("a.cert", NO_START)];
    let refusal: &[u8] = b"refused Certificate line 9 reason StartNotJoined\n";
    let cases = [
        failed.with_failing_reads(&[1]),
        done.with_failing_reads(&[2]).with_sink(1000, &[2]),
        over(wrong, Status::Outside, b"refused Outside\n").with_failing_reads(&[1]),
        over(&[], Status::Outside, b"refused Outside\n").with_failing_reads(&[1]),
        over(wrong, Status::Refused, refusal).with_sink(1000, &[2]),
        over(wrong, Status::Outside, b"refused Cert").with_sink(12, &[]),
        over(GOOD, Status::Outside, b"").with_sink(1000, &[1]),
        over(GOOD, Status::Outside, b"joins").with_sink(5, &[]),
        done.with_sink(30, &[]),
    ];
    assert_eq!(rt; first_wrong(&rt, rt.alloc(), &cases)?, None);
    Ok(())
}
