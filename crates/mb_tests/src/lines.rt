//! Lines of numbers that have one spelling.

use mb_tables::OutOfMemory;
use mb_text::{
    LineFault, after_word, next_line, plain_number, plain_signed, push_line, push_number,
    push_text, push_word_line, read_numbers,
};
use std::test::Fail;

/// Whether a line of number 3 is these numbers, or wrong where there are none.
fn reads_naturals(rt: &HostRuntime, line: &[u8], wanted: &[u32]) -> bool {
    match read_numbers::<u32>(rt.alloc(), line, 3) {
        Ok(numbers) => numbers.as_slice() == wanted,
        Err(fault) => wanted.is_empty() && fault == LineFault::Wrong { line: 3 },
    }
}

/// The same of numbers with a sign.
fn reads_signed(rt: &HostRuntime, line: &[u8], wanted: &[i32]) -> bool {
    match read_numbers::<i32>(rt.alloc(), line, 3) {
        Ok(numbers) => numbers.as_slice() == wanted,
        Err(fault) => wanted.is_empty() && fault == LineFault::Wrong { line: 3 },
    }
}

// By hand: one spelling for each number, one space between two, within the type.
#[test]
fn lines_of_naturals(rt: HostRuntime) -> Result<(), Fail> {
    let cases: [(&[u8], &[u32]); 19] = [
        (b"0", &[0]),
        (b"1 0 8", &[1, 0, 8]),
        (b"1 3 2 2 4 5 2 5", &[1, 3, 2, 2, 4, 5, 2, 5]),
        (b"4294967295", &[4_294_967_295]),
        (b"", &[]),
        (b" ", &[]),
        (b" 1", &[]),
        (b"1 ", &[]),
        (b"1  2", &[]),
        (b"1\t2", &[]),
        (b"1\r", &[]),
        (b"00", &[]),
        (b"01", &[]),
        (b"+1", &[]),
        (b"-1", &[]),
        (b"1x", &[]),
        (b"1\n", &[]),
        (b"4294967296", &[]),
        (b"1 99999999999999999999999999999999999999999999999999", &[]),
    ];
    for (line, wanted) in cases {
        assert!(rt; reads_naturals(&rt, line, wanted));
    }
    Ok(())
}

// The same with a sign: `-` stands only before a number that isn't 0.
#[test]
fn lines_of_signed_numbers(rt: HostRuntime) -> Result<(), Fail> {
    let cases: [(&[u8], &[i32]); 13] = [
        (b"-1 1 1 -1", &[-1, 1, 1, -1]),
        (
            b"0 -2147483647 2147483647",
            &[0, -2_147_483_647, 2_147_483_647],
        ),
        (b"", &[]),
        (b"-", &[]),
        (b"-0", &[]),
        (b"-01", &[]),
        (b"--1", &[]),
        (b"- 1", &[]),
        (b"+1", &[]),
        (b"1-", &[]),
        (b"2147483648", &[]),
        (b"-2147483648", &[]),
        (b"-99999999999999999999999999999999999999999999999999", &[]),
    ];
    for (line, wanted) in cases {
        assert!(rt; reads_signed(&rt, line, wanted));
    }
    Ok(())
}

// The greatest number of 128 bits, and a limit.
#[test]
fn numbers_alone(rt: HostRuntime) {
    let greatest = b"340282366920938463463374607431768211455";
    let above = b"340282366920938463463374607431768211456";
    assert!(rt; plain_number(greatest, u128::MAX) == Some(u128::MAX));
    assert!(rt; plain_number(above, u128::MAX) == None);
    assert!(rt; plain_number(b"100000", 100_000) == Some(100_000));
    assert!(rt; plain_number(b"100001", 100_000) == None);
    assert!(rt; plain_number(b"", 9) == None);
    assert!(rt; plain_signed(b"-5", 5) == Some(-5));
    assert!(rt; plain_signed(b"-6", 5) == None);
}

/// The first line of a text and how many bytes follow it, as a pair.
fn first_line(text: &[u8]) -> Option<(usize, usize)> {
    match next_line(text) {
        Some((line, rest)) => Some((line.len(), rest.len())),
        None => None,
    }
}

// A line ends with a line feed; a word is followed by one space.
#[test]
fn lines_and_words(rt: HostRuntime) {
    assert!(rt; first_line(b"end\n") == Some((3, 0)));
    assert!(rt; first_line(b"\n\nx") == Some((0, 2)));
    assert!(rt; first_line(b"end") == None);
    assert!(rt; first_line(b"") == None);
    assert!(rt; matches!(after_word(b"rules 9", b"rules"), Some(b"9")));
    assert!(rt; matches!(after_word(b"rules ", b"rules"), Some(b"")));
    assert!(rt; after_word(b"rules", b"rules").is_none());
    assert!(rt; after_word(b"rules9", b"rules").is_none());
    assert!(rt; after_word(b"rule 9", b"rules").is_none());
}

/// A text of lines.
fn lines_written(rt: &HostRuntime) -> Result<Vec<u8>, OutOfMemory> {
    let mut out = Vec::new(rt.alloc());
    push_word_line(&mut out, b"observed", &[3u32, 1, 1, 3])?;
    push_line(&mut out, &[-2_147_483_647i32, 0, 7])?;
    push_text(&mut out, b"weight ")?;
    push_number(&mut out, u128::MAX)?;
    Ok(out)
}

// By hand.
#[test]
fn written_lines(rt: HostRuntime) -> Result<(), Fail> {
    let text = lines_written(&rt)?;
    let wanted: &[u8] = b"observed 3 1 1 3\n-2147483647 0 7\nweight \
        340282366920938463463374607431768211455";
    assert!(rt; text.as_slice() == wanted);
    Ok(())
}
