//! The texts of certificates.

use mb_certificate::{ReadFault, read, rule_table, write};
use std::alloc::Global;
use std::test::Fail;

/// The certificate of one row of two ones.
const ONE_ROW: &[u8] =
    b"certificate 1\nmatrix 1 2\n1 1\norder grevlex\nmoves 1\n1 -1\nrules 2\n0 1 0 > 0 0 1\n1 0 0 > 0 0 1\nstarts 2\n1 1 1 0\n1 0 1\njoins 0\npaths 1\n0 1 -1\nend\n";

/// The certificate of independence in a 2 x 2 table, of 45 lines.
const INDEPENDENCE: &[u8] =
    b"certificate 1\nmatrix 4 4\n1 1 0 0\n0 0 1 1\n1 0 1 0\n0 1 0 1\norder grevlex\nmoves 1\n-1 1 1 -1\nrules 9\n0 0 0 0 0 1 1 0 > 0 0 0 0 1 0 0 1\n0 0 1 0 0 0 0 1 > 0 0 0 1 0 0 1 0\n0 0 1 0 0 1 0 0 > 0 0 0 1 1 0 0 0\n1 0 0 0 0 0 0 1 > 0 1 0 0 0 1 0 0\n1 0 0 0 0 0 1 0 > 0 1 0 0 1 0 0 0\n0 1 0 1 0 0 0 0 > 0 0 0 0 0 0 0 1\n1 0 0 1 0 0 0 0 > 0 0 0 0 0 1 0 0\n0 1 1 0 0 0 0 0 > 0 0 0 0 0 0 1 0\n1 0 1 0 0 0 0 0 > 0 0 0 0 1 0 0 0\nstarts 4\n1 0 8\n1 0 6\n1 0 7\n1 0 5\njoins 17\n0 2 1 0 1\n1 2 1 0 0\n1 3 2 2 4 5 2 5\n0 4 1 0 3\n3 4 1 0 0\n3 6 1 0 5\n4 6 1 1 5 0\n5 6 1 0 3\n1 7 1 0 5\n2 7 1 1 5 0\n5 7 1 0 1\n1 8 2 0 4 5\n2 8 1 0 6\n3 8 2 0 2 5\n4 8 1 0 7\n6 8 1 0 2\n7 8 1 0 4\npaths 1\n0 1 -1\nend\n";

/// Whether a text is read, and written again byte for byte.
fn is_kept(alloc: Global, text: &[u8]) -> Result<bool, Fail> {
    match read(alloc, text) {
        Ok(certificate) => Ok(write(alloc, &certificate)?.as_slice() == text),
        Err(_) => Ok(false),
    }
}

/// Whether the rule table of a text is this one.
fn has_rules(alloc: Global, text: &[u8], rules: &[u8]) -> Result<bool, Fail> {
    match read(alloc, text) {
        Ok(certificate) => Ok(rule_table(alloc, &certificate)?.as_slice() == rules),
        Err(_) => Ok(false),
    }
}

/// Whether a text is wrong, and first at the line of this number.
fn is_wrong_at(alloc: Global, text: &[u8], number: u64) -> Result<bool, Fail> {
    match read(alloc, text) {
        Ok(_) => Ok(false),
        Err(ReadFault::Text { line }) => Ok(line == number),
        Err(ReadFault::OutOfMemory) => Err(Fail::from("no memory")),
    }
}

/// How many bytes of a text are kept where it is cut, at the first cut that isn't refused at the
/// line in which the next byte stood.
fn first_cut_elsewhere(alloc: Global, text: &[u8]) -> Result<Option<usize>, Fail> {
    let mut line = 1u64;
    for (cut, b) in text.iter().enumerate() {
        if !is_wrong_at(alloc, &text[..cut], line)? {
            return Ok(Some(cut));
        }
        if *b == b'\n' {
            line = line.saturating_add(1);
        }
    }
    Ok(None)
}

/// A text with another line of this number.
fn with_line(alloc: Global, text: &[u8], number: u64, line: &[u8]) -> Result<Vec<u8>, Fail> {
    let mut out = Vec::new(alloc);
    let mut here = 1u64;
    for b in text {
        if *b == b'\n' && here == number {
            out.extend_from_slice(line)?;
        }
        if *b == b'\n' || here != number {
            out.push(*b)?;
        }
        if *b == b'\n' {
            here = here.saturating_add(1);
        }
    }
    Ok(out)
}

/// The place of the first of some lines, put in place of those of their numbers one at a time, with
/// which a text isn't wrong at the line named beside it.
fn first_missed(
    alloc: Global,
    text: &[u8],
    cases: &[(u64, &[u8], u64)],
) -> Result<Option<usize>, Fail> {
    for (place, (number, line, wrong)) in cases.iter().enumerate() {
        let changed = with_line(alloc, text, *number, line)?;
        if !is_wrong_at(alloc, changed.as_slice(), *wrong)? {
            return Ok(Some(place));
        }
    }
    Ok(None)
}

// The worked certificates.
#[test]
fn certificates_both_ways(rt: HostRuntime) -> Result<(), Fail> {
    let alloc = rt.alloc();
    assert!(rt; is_kept(alloc, ONE_ROW)?);
    assert!(rt; is_kept(alloc, INDEPENDENCE)?);
    assert!(rt; has_rules(alloc, ONE_ROW, b"rules 2\n0 1 0 > 0 0 1\n1 0 0 > 0 0 1\n")?);
    assert!(rt; first_cut_elsewhere(alloc, ONE_ROW)?.is_none());
    assert!(rt; first_cut_elsewhere(alloc, INDEPENDENCE)?.is_none());
    Ok(())
}

// By hand: lines in place of those of these numbers, and the line that is then wrong.
#[test]
fn wrong_lines_of_certificates(rt: HostRuntime) -> Result<(), Fail> {
    let cases: [(u64, &[u8], u64); 28] = [
        (1, b"certificate 2", 1),
        (1, b"certificate 1 ", 1),
        (1, b"", 1),
        (2, b"matrix 0 4", 2),
        (2, b"matrix 65 4", 2),
        (2, b"matrix 4 4\r", 2),
        (2, b"matrix 5 4", 7),
        (3, b"01 1 0 0", 3),
        (3, b"1001 1 0 0", 3),
        (3, b"-1 1 0 0", 3),
        (7, b"order deglex", 7),
        (8, b"moves 4294967295", 8),
        (8, b"moves 1000065", 8),
        (8, b"moves 0", 9),
        (9, b"-1 1  1 -1", 9),
        (9, b"-1 1 1 -0", 9),
        (9, b"-2147483648 1 1 -1", 9),
        (11, b"0 0 0 0 0 1 65536 0 > 0 0 0 0 1 0 0 1", 11),
        (11, b"0 0 0 0 0 1 1 0 < 0 0 0 0 1 0 0 1", 11),
        (20, b"starts 3", 20),
        (20, b"starts 5", 20),
        (21, b"1 0 4294967296", 21),
        (25, b"joins 4294967295", 43),
        (26, b"0 2 1 0", 26),
        (26, b"0 2 18446744073709551615 1 1", 26),
        (44, b"0 1 0", 44),
        (45, b"end ", 45),
        (45, b"end\n", 46),
    ];
    assert!(rt; first_missed(rt.alloc(), INDEPENDENCE, &cases)?.is_none());
    assert!(rt;
        first_missed(
            rt.alloc(),
            ONE_ROW,
            &[(3, b"1 0", 3), (13, b"joins 1099511627776", 13)]
        )?
        .is_none()
    );
    Ok(())
}
