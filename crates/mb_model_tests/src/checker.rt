//! The check of certificates. The verdicts are by hand, line by line.

use mb_certificate::{ReadFault, read};
use mb_checker::{Reason, Verdict, check};
use std::alloc::Global;
use std::test::Fail;

/// The parts of a certificate of one margin and two cells.
const MOVES: &str = "moves 1\n1 -1\n";

const RULES: &str = "rules 2\n0 1 0 > 0 0 1\n1 0 0 > 0 0 1\n";

const STARTS: &str = "starts 2\n1 1 1 0\n1 0 1\n";

const PATHS: &str = "joins 0\npaths 1\n0 1 -1\n";

/// A certificate of a 2 x 2 table, up to the number of its joins.
const TWO_BY_TWO: &str = "certificate 1\nmatrix 4 4\n1 1 0 0\n0 0 1 1\n1 0 1 0\n0 1 0 1\n\
    order grevlex\nmoves 1\n-1 1 1 -1\nrules 9\n\
    0 0 0 0 0 1 1 0 > 0 0 0 0 1 0 0 1\n0 0 1 0 0 0 0 1 > 0 0 0 1 0 0 1 0\n\
    0 0 1 0 0 1 0 0 > 0 0 0 1 1 0 0 0\n1 0 0 0 0 0 0 1 > 0 1 0 0 0 1 0 0\n\
    1 0 0 0 0 0 1 0 > 0 1 0 0 1 0 0 0\n0 1 0 1 0 0 0 0 > 0 0 0 0 0 0 0 1\n\
    1 0 0 1 0 0 0 0 > 0 0 0 0 0 1 0 0\n0 1 1 0 0 0 0 0 > 0 0 0 0 0 0 1 0\n\
    1 0 1 0 0 0 0 0 > 0 0 0 0 1 0 0 0\nstarts 4\n1 0 8\n1 0 6\n1 0 7\n1 0 5\n";

/// Its joins but the first and the last.
const JOINS: &str = "1 2 1 0 0\n1 3 2 2 4 5 2 5\n0 4 1 0 3\n3 4 1 0 0\n3 6 1 0 5\n4 6 1 1 5 0\n\
    5 6 1 0 3\n1 7 1 0 5\n2 7 1 1 5 0\n5 7 1 0 1\n1 8 2 0 4 5\n2 8 1 0 6\n3 8 2 0 2 5\n\
    4 8 1 0 7\n6 8 1 0 2\n";

/// What the checker says of the certificate of a text.
fn verdict_of(alloc: Global, text: &[u8]) -> Result<Verdict, Fail> {
    match read(alloc, text) {
        Ok(certificate) => match check(alloc, &certificate) {
            Ok(verdict) => Ok(verdict),
            Err(_) => Err(Fail::from("no memory")),
        },
        Err(ReadFault::Text { line: _ }) => Err(Fail::from("no certificate")),
        Err(ReadFault::OutOfMemory) => Err(Fail::from("no memory")),
    }
}

/// What it says of one of two cells with these moves, rules and starts, and this rest.
fn two_cells(
    alloc: Global,
    moves: &str,
    rules: &str,
    starts: &str,
    rest: &str,
) -> Result<Verdict, Fail> {
    let head = format!(in alloc; "certificate 1\nmatrix 1 2\n1 1\norder grevlex\n{moves}{rules}")?;
    let text = format!(in alloc; "{head}{starts}{rest}end\n")?;
    verdict_of(alloc, text.as_str().as_bytes())
}

/// What it says of that of the 2 x 2 table with the number of joins, and the first and the last of
/// them, so.
fn two_by_two(alloc: Global, first: &str, last: &str) -> Result<Verdict, Fail> {
    let text = format!(in alloc; "{TWO_BY_TWO}{first}{JOINS}{last}paths 1\n0 1 -1\nend\n")?;
    verdict_of(alloc, text.as_str().as_bytes())
}

/// Whether the first wrong line is this one, for this reason.
fn is_refused(verdict: Verdict, line: u64, reason: Reason) -> bool {
    verdict == Verdict::Refused { line, reason }
}

/// A further move, whose margin isn't 0.
const TWO_MOVES: &str = "moves 2\n1 -1\n1 0\n";

/// A further rule, whose sides weigh otherwise.
const MORE: &str = "rules 3\n0 1 0 > 0 0 1\n1 0 0 > 0 0 1\n0 0 1 > 2 0 0\n";

/// One that leads up.
const UP: &str = "rules 3\n0 1 0 > 0 0 1\n1 0 0 > 0 0 1\n0 0 1 > 1 0 0\n";

/// Rules of which two have a peak that is too heavy, and what follows their starts.
const HEAVY: &str = "rules 3\n1 0 0 > 0 0 1\n0 1 0 > 0 0 1\n0 2 65534 > 0 1 65535\n";

const JOINED: &str = "joins 1\n1 2 0 0\npaths 2\n1 1 -1\n2 1 -1\n";

/// Moves, rules, starts and the rest of a certificate of two cells; its first wrong line, and why.
type Case = (
    &'static str,
    &'static str,
    &'static str,
    &'static str,
    u64,
    Reason,
);

/// In each but the last, one line alone is wrong, or the first of those that are is meant.
const CASES: [Case; 15] = [
    (TWO_MOVES, RULES, STARTS, PATHS, 7, Reason::MoveMargins),
    (MOVES, MORE, STARTS, PATHS, 10, Reason::WeightDiffers),
    (MOVES, UP, STARTS, PATHS, 10, Reason::NotDown),
    (
        MOVES,
        RULES,
        "starts 2\n1 1 1 0\n0 0\n",
        PATHS,
        12,
        Reason::StartNotJoined,
    ),
    (
        MOVES,
        RULES,
        "starts 2\n1 1 1 0\n1 0 2\n",
        PATHS,
        12,
        Reason::StepNotApplicable,
    ),
    (
        MOVES,
        RULES,
        "starts 2\n1 1 1 0\n1 0 0\n",
        PATHS,
        12,
        Reason::StepNotApplicable,
    ),
    (
        MOVES,
        RULES,
        STARTS,
        "joins 1\n0 1 0 0\npaths 1\n0 1 -1\n",
        14,
        Reason::PairMissing,
    ),
    (
        MOVES,
        HEAVY,
        "starts 2\n1 1 0 1\n1 0 0\n",
        JOINED,
        15,
        Reason::PeakTooHeavy,
    ),
    (
        MOVES,
        RULES,
        STARTS,
        "joins 0\npaths 1\n1 1 -1\n",
        15,
        Reason::PathMissing,
    ),
    (
        MOVES,
        RULES,
        STARTS,
        "joins 0\npaths 0\n",
        15,
        Reason::PathMissing,
    ),
    (
        MOVES,
        RULES,
        STARTS,
        "joins 0\npaths 1\n0 1 2\n",
        15,
        Reason::StepNotApplicable,
    ),
    (
        MOVES,
        RULES,
        STARTS,
        "joins 0\npaths 1\n0 2 1 2\n",
        15,
        Reason::StepNotApplicable,
    ),
    (
        MOVES,
        RULES,
        STARTS,
        "joins 0\npaths 1\n0 1 1\n",
        15,
        Reason::PathBelowZero,
    ),
    (
        MOVES,
        RULES,
        STARTS,
        "joins 0\npaths 1\n0 0\n",
        15,
        Reason::PathEnd,
    ),
    (
        TWO_MOVES,
        UP,
        "starts 2\n0 0\n0 0\n",
        "joins 0\npaths 0\n",
        7,
        Reason::MoveMargins,
    ),
];

/// The place of the first case in which another line is found, or another reason.
fn first_missed(alloc: Global, cases: &[Case]) -> Result<Option<usize>, Fail> {
    for (place, (moves, rules, starts, rest, line, reason)) in cases.iter().enumerate() {
        let verdict = two_cells(alloc, *moves, *rules, *starts, *rest)?;
        if !is_refused(verdict, *line, *reason) {
            return Ok(Some(place));
        }
    }
    Ok(None)
}

#[test]
fn the_first_wrong_line(rt: HostRuntime) -> Result<(), Fail> {
    let alloc = rt.alloc();
    assert!(rt; two_cells(alloc, MOVES, RULES, STARTS, PATHS)? == Verdict::Joins);
    assert!(rt; first_missed(alloc, &CASES)?.is_none());
    Ok(())
}

// The joins of all pairs that share a symbol, by the second rule and then by the first.
#[test]
fn each_pair_has_its_join(rt: HostRuntime) -> Result<(), Fail> {
    let alloc = rt.alloc();
    assert!(rt; two_by_two(alloc, "joins 17\n0 2 1 0 1\n", "7 8 1 0 4\n")? == Verdict::Joins);
    let cases: [(&str, &str, u64, Reason); 4] = [
        ("joins 16\n", "7 8 1 0 4\n", 26, Reason::PairMissing),
        ("joins 16\n0 2 1 0 1\n", "", 42, Reason::PairMissing),
        (
            "joins 17\n0 2 1 0 9\n",
            "7 8 1 0 4\n",
            26,
            Reason::StepNotApplicable,
        ),
        (
            "joins 17\n0 2 0 0\n",
            "7 8 1 0 4\n",
            26,
            Reason::PairNotJoined,
        ),
    ];
    for (first, last, line, reason) in cases {
        assert!(rt; is_refused(two_by_two(alloc, first, last)?, line, reason));
    }
    Ok(())
}
