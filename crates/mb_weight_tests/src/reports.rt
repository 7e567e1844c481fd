//! Reports of exact tests.

use mb_reports::{Analysis, RecordFault, read_report, report};
use std::alloc::Global;
use std::test::Fail;

/// The report of independence in the 2 x 2 table 3 1 1 3.
const WORKED: &[u8] =
    b"analysis a1\nbasis b1\nmodel m1\ndataset d1\nobserved 3 1 1 3\ntables 5\nrings 1 2 1 1\n\
    weight 16\nfraction 34/70\ndecimals 0.485714\n";

/// The number of the first wrong line of a text, or 0 where it is a report.
fn wrong_line(alloc: Global, text: &[u8]) -> Result<u32, Fail> {
    match read_report(alloc, text) {
        Ok(_) => Ok(0),
        Err(RecordFault::Text { line }) => Ok(line),
        Err(RecordFault::OutOfMemory) => Err(Fail::from("no memory")),
    }
}

/// Whether a text is read, and written again byte for byte.
fn is_kept(alloc: Global, text: &[u8]) -> Result<bool, Fail> {
    match read_report(alloc, text) {
        Ok(analysis) => Ok(report(alloc, &analysis)?.as_slice() == text),
        Err(_) => Ok(false),
    }
}

/// Whether an analysis has the names of the worked one.
fn has_names(analysis: &Analysis) -> bool {
    analysis.name.as_str() == "a1"
        && analysis.basis.as_str() == "b1"
        && analysis.model.as_str() == "m1"
        && analysis.dataset.as_str() == "d1"
}

/// Whether an analysis has the numbers of the worked one.
fn has_numbers(analysis: &Analysis) -> bool {
    analysis.observed.as_slice() == [3u32, 1, 1, 3].as_slice()
        && analysis.rings.as_slice() == [1u32, 2, 1, 1].as_slice()
        && analysis.weight == 16
        && analysis.below == 34
        && analysis.whole == 70
}

/// Whether a text is read as the worked analysis.
fn is_worked(alloc: Global, text: &[u8]) -> bool {
    match read_report(alloc, text) {
        Ok(analysis) => has_names(&analysis) && has_numbers(&analysis),
        Err(_) => false,
    }
}

// The worked report: each part as it is read, and the whole as it is written.
#[test]
fn the_worked_report(rt: HostRuntime) -> Result<(), Fail> {
    assert!(rt; is_worked(rt.alloc(), WORKED));
    assert!(rt; is_kept(rt.alloc(), WORKED)?);
    Ok(())
}

/// The worked report with one of its lines replaced.
fn with_line(alloc: Global, place: usize, line: &[u8]) -> Result<Vec<u8>, Fail> {
    let lines: [&[u8]; 10] = [
        b"analysis a1",
        b"basis b1",
        b"model m1",
        b"dataset d1",
        b"observed 3 1 1 3",
        b"tables 5",
        b"rings 1 2 1 1",
        b"weight 16",
        b"fraction 34/70",
        b"decimals 0.485714",
    ];
    let mut text = Vec::new(alloc);
    for (k, own) in lines.iter().enumerate() {
        text.extend_from_slice(if k + 1 == place { line } else { own })?;
        text.push(b'\n')?;
    }
    Ok(text)
}

/// A place of a line, what stands there, and the first wrong line.
type Row = (usize, &'static [u8], u32);

/// Whether each row's text is first wrong at its line.
fn are_wrong_so(alloc: Global, rows: &[Row]) -> Result<bool, Fail> {
    for (place, line, wanted) in rows {
        let text = with_line(alloc, *place, line)?;
        if wrong_line(alloc, text.as_slice())? != *wanted {
            return Ok(false);
        }
    }
    Ok(true)
}

/// The lines of the names.
const NAMES: [Row; 51] = [
    (0, b"", 0),
    (1, b"analysis", 1),
    (1, b"analysis ", 1),
    (1, b"analysis  a1", 1),
    (1, b"analysis a1 ", 1),
    (1, b"analysis A1", 1),
    (1, b"analysis -a", 1),
    (1, b"analysis a1 a2", 1),
    (1, b"analysis a1\r", 1),
    (1, b"analysis a.b", 1),
    (1, b"analysis \xc3\xa9", 1),
    (2, b"basis", 2),
    (2, b"basis ", 2),
    (2, b"basis  a1", 2),
    (2, b"basis a1 ", 2),
    (2, b"basis A1", 2),
    (2, b"basis -a", 2),
    (2, b"basis a1 a2", 2),
    (2, b"basis a1\r", 2),
    (2, b"basis a.b", 2),
    (2, b"basis \xc3\xa9", 2),
    (3, b"model", 3),
    (3, b"model ", 3),
    (3, b"model  a1", 3),
    (3, b"model a1 ", 3),
    (3, b"model A1", 3),
    (3, b"model -a", 3),
    (3, b"model a1 a2", 3),
    (3, b"model a1\r", 3),
    (3, b"model a.b", 3),
    (3, b"model \xc3\xa9", 3),
    (4, b"dataset", 4),
    (4, b"dataset ", 4),
    (4, b"dataset  a1", 4),
    (4, b"dataset a1 ", 4),
    (4, b"dataset A1", 4),
    (4, b"dataset -a", 4),
    (4, b"dataset a1 a2", 4),
    (4, b"dataset a1\r", 4),
    (4, b"dataset a.b", 4),
    (4, b"dataset \xc3\xa9", 4),
    (1, b" analysis a1", 1),
    (1, b"Analysis a1", 1),
    (1, b"basis a1", 1),
    (2, b"", 2),
    (3, b"model m1\x00", 3),
    (4, b"dataset\td1", 4),
    (1, b"analysis _-", 0),
    (2, b"basis 0", 0),
    (
        3,
        b"model aaaaaaaaaaaaaaaaaaaaaaaaaaaaaaaaaaaaaaaaaaaaaaaaaaaaaaaaaaaaaaaa",
        0,
    ),
    (
        4,
        b"dataset aaaaaaaaaaaaaaaaaaaaaaaaaaaaaaaaaaaaaaaaaaaaaaaaaaaaaaaaaaaaaaaaa",
        4,
    ),
];

/// The lines of the observed table, of the number of tables, and of the rings.
const COUNTS: [Row; 49] = [
    (5, b"observed", 5),
    (5, b"observed ", 5),
    (5, b"observed 3 1 1 03", 5),
    (5, b"observed 3 1  1 3", 5),
    (5, b"observed 3 1 1 3 ", 5),
    (5, b"observed 3 1 1 +3", 5),
    (5, b"observed 3 1 1 -3", 5),
    (5, b"observed 3 1 1 3\r", 5),
    (5, b"observed 3 1 1 x", 5),
    (5, b"observed 3 1 1 4294967296", 5),
    (5, b"observed 3 1 1 4294967295", 0),
    (5, b"observed 0", 0),
    (5, b"observed 00", 5),
    (
        5,
        b"observed 1 1 1 1 1 1 1 1 1 1 1 1 1 1 1 1 1 1 1 1 1 1 1 1 1 1 1 1 1 1 1 1 1 1 1 1 1 1 1 1 1 1 1 1 1 1 1 1 1 1 1 1 1 1 1 1 1 1 1 1 1 1 1 1",
        0,
    ),
    (
        5,
        b"observed 1 1 1 1 1 1 1 1 1 1 1 1 1 1 1 1 1 1 1 1 1 1 1 1 1 1 1 1 1 1 1 1 1 1 1 1 1 1 1 1 1 1 1 1 1 1 1 1 1 1 1 1 1 1 1 1 1 1 1 1 1 1 1 1 1",
        5,
    ),
    (5, b"observe 3 1 1 3", 5),
    (6, b"tables", 6),
    (6, b"tables ", 6),
    (6, b"tables 05", 6),
    (6, b"tables 5 ", 6),
    (6, b"tables  5", 6),
    (6, b"tables 5 5", 6),
    (6, b"tables x", 6),
    (6, b"tables -5", 6),
    (6, b"tables +5", 6),
    (6, b"tables 5\r", 6),
    (6, b"tables 5.0", 6),
    (6, b"tables 4", 7),
    (6, b"tables 6", 7),
    (6, b"tables 0", 7),
    (6, b"tables 4294967301", 7),
    (6, b"tables 18446744073709551621", 7),
    (6, b"tables 340282366920938463463374607431768211461", 7),
    (6, b"tables 0x5", 6),
    (7, b"rings", 7),
    (7, b"rings ", 7),
    (7, b"rings 1 2 1 01", 7),
    (7, b"rings 1 2 1 1 ", 7),
    (7, b"rings 1 2  1 1", 7),
    (7, b"rings 1 2 1 2", 7),
    (7, b"rings 1 2 1", 7),
    (7, b"rings 1 2 1 1\r", 7),
    (7, b"rings 1 2 1 -1", 7),
    (7, b"rings 4294967301", 7),
    (7, b"rings 5", 0),
    (7, b"rings 0 0 5", 0),
    (7, b"rings 1 2 2", 0),
    (7, b"rings 5 4294967296", 7),
    (7, b"ring 1 2 1 1", 7),
];

/// The lines of the weight, of the fraction, and of its decimals.
const VALUES: [Row; 54] = [
    (8, b"weight", 8),
    (8, b"weight ", 8),
    (8, b"weight 0", 8),
    (8, b"weight 016", 8),
    (8, b"weight 16 ", 8),
    (8, b"weight  16", 8),
    (8, b"weight 16 16", 8),
    (8, b"weight 16\r", 8),
    (8, b"weight -16", 8),
    (8, b"weight 1", 0),
    (8, b"weight 34", 0),
    (8, b"weight 35", 9),
    (8, b"weight 340282366920938463463374607431768211455", 9),
    (8, b"weight 340282366920938463463374607431768211456", 8),
    (9, b"fraction", 9),
    (9, b"fraction ", 9),
    (9, b"fraction 34", 9),
    (9, b"fraction 34/", 9),
    (9, b"fraction /70", 9),
    (9, b"fraction 34/70/1", 9),
    (9, b"fraction 34/70/", 9),
    (9, b"fraction 34 70", 9),
    (9, b"fraction 34/ 70", 9),
    (9, b"fraction 34 /70", 9),
    (9, b"fraction 034/70", 9),
    (9, b"fraction 34/070", 9),
    (9, b"fraction 34/70 ", 9),
    (9, b"fraction 34/70\r", 9),
    (9, b"fraction 34//70", 9),
    (9, b"fraction -34/70", 9),
    (9, b"fraction 15/70", 9),
    (9, b"fraction 71/70", 9),
    (9, b"fraction 16/70", 10),
    (9, b"fraction 17/35", 0),
    (9, b"fraction 34/71", 10),
    (9, b"fraction 70/70", 10),
    (9, b"fraction 34/340282366920938463463374607431768211456", 9),
    (
        9,
        b"fraction 340282366920938463463374607431768211456/340282366920938463463374607431768211456",
        9,
    ),
    (
        9,
        b"fraction 34/340282366920938463463374607431768211455",
        10,
    ),
    (10, b"decimals", 10),
    (10, b"decimals ", 10),
    (10, b"decimals 0.485715", 10),
    (10, b"decimals 0.48571", 10),
    (10, b"decimals 0.4857142", 10),
    (10, b"decimals .485714", 10),
    (10, b"decimals 00.485714", 10),
    (10, b"decimals 0,485714", 10),
    (10, b"decimals 0.485714 ", 10),
    (10, b"decimals  0.485714", 10),
    (10, b"decimals 0.485714\r", 10),
    (10, b"decimals 1.000000", 10),
    (10, b"decimals 0", 10),
    (10, b"decimals 0.485714\n", 11),
    (10, b"decimals 0.485714\nend", 11),
];

// By hand: each line broken in turn, and what is read of it at its limits.
#[test]
fn broken_lines(rt: HostRuntime) -> Result<(), Fail> {
    assert!(rt; are_wrong_so(rt.alloc(), &NAMES)?);
    assert!(rt; are_wrong_so(rt.alloc(), &COUNTS)?);
    assert!(rt; are_wrong_so(rt.alloc(), &VALUES)?);
    Ok(())
}

/// How many bytes of a text are kept where it is cut, at the first cut that isn't refused at the
/// line in which the next byte stood.
fn first_cut_elsewhere(alloc: Global, text: &[u8]) -> Result<Option<usize>, Fail> {
    let mut line = 1u32;
    for (cut, b) in text.iter().enumerate() {
        if wrong_line(alloc, &text[..cut])? != line {
            return Ok(Some(cut));
        }
        if *b == b'\n' && line < 1000 {
            line += 1;
        }
    }
    Ok(None)
}

// A text that is cut is wrong at the line in which it is cut.
#[test]
fn every_cut_is_refused(rt: HostRuntime) -> Result<(), Fail> {
    assert!(rt; first_cut_elsewhere(rt.alloc(), WORKED)? == None);
    Ok(())
}

/// The worked report with bytes before and behind it.
fn around(alloc: Global, front: &[u8], behind: &[u8]) -> Result<Vec<u8>, Fail> {
    let mut text = Vec::new(alloc);
    text.extend_from_slice(front)?;
    text.extend_from_slice(WORKED)?;
    text.extend_from_slice(behind)?;
    Ok(text)
}

/// Bytes before and behind the worked report, and the first wrong line.
const AROUND: [(&[u8], &[u8], u32); 9] = [
    (b"", b"", 0),
    (b"\xef\xbb\xbf", b"", 1),
    (b"\n", b"", 1),
    (b" ", b"", 1),
    (b"", b"\n", 11),
    (b"", b" ", 11),
    (b"", b"\x00", 11),
    (b"", b"end\n", 11),
    (b"", WORKED, 11),
];

/// Whether each text around the worked report is first wrong at its line.
fn are_wrong_around(alloc: Global, rows: &[(&[u8], &[u8], u32)]) -> Result<bool, Fail> {
    for (front, behind, wanted) in rows {
        let text = around(alloc, front, behind)?;
        if wrong_line(alloc, text.as_slice())? != *wanted {
            return Ok(false);
        }
    }
    Ok(true)
}

// By hand: bytes around a report, no text, and line ends alone.
#[test]
fn other_texts(rt: HostRuntime) -> Result<(), Fail> {
    assert!(rt; are_wrong_around(rt.alloc(), &AROUND)?);
    assert!(rt; wrong_line(rt.alloc(), b"")? == 1);
    assert!(rt; wrong_line(rt.alloc(), b"\n\n")? == 1);
    Ok(())
}

/// The worked report with these last three lines.
fn with_numbers(
    alloc: Global,
    weight: &[u8],
    fraction: &[u8],
    decimals: &[u8],
) -> Result<Vec<u8>, Fail> {
    let mut text = Vec::new(alloc);
    text.extend_from_slice(
        b"analysis a1\nbasis b1\nmodel m1\ndataset d1\nobserved 3 1 1 3\ntables 5\nrings 1 2 1 1\n",
    )?;
    text.extend_from_slice(b"weight ")?;
    text.extend_from_slice(weight)?;
    text.extend_from_slice(b"\nfraction ")?;
    text.extend_from_slice(fraction)?;
    text.extend_from_slice(b"\ndecimals ")?;
    text.extend_from_slice(decimals)?;
    text.extend_from_slice(b"\n")?;
    Ok(text)
}

/// Weights, fractions and their decimals.
const NUMBERS: [(&[u8], &[u8], &[u8]); 18] = [
    (b"1", b"1/1", b"1.000000"),
    (b"1", b"1/2", b"0.500000"),
    (b"1", b"1/1000000", b"0.000001"),
    (b"1", b"1/1000001", b"0.000000"),
    (b"2", b"2/6", b"0.333333"),
    (b"8", b"10/10", b"1.000000"),
    (b"1", b"2/10", b"0.200000"),
    (b"1", b"24/369600", b"0.000064"),
    (b"1", b"64/262144", b"0.000244"),
    (b"16", b"34/70", b"0.485714"),
    (
        b"340282366920938463463374607431768211455",
        b"340282366920938463463374607431768211455/340282366920938463463374607431768211455",
        b"1.000000",
    ),
    (
        b"1",
        b"340282366920938463463374607431768211455/340282366920938463463374607431768211455",
        b"1.000000",
    ),
    (
        b"1",
        b"340282366920938463463374607431768211454/340282366920938463463374607431768211455",
        b"0.999999",
    ),
    (
        b"1",
        b"1/340282366920938463463374607431768211455",
        b"0.000000",
    ),
    (
        b"1",
        b"170141183460469231731687303715884105728/340282366920938463463374607431768211455",
        b"0.500000",
    ),
    (
        b"170141183460469231731687303715884105728",
        b"170141183460469231731687303715884105728/340282366920938463463374607431768211455",
        b"0.500000",
    ),
    (
        b"1",
        b"18446744073709551616/36893488147419103232",
        b"0.500000",
    ),
    (
        b"340282366920938463463374607431768211454",
        b"340282366920938463463374607431768211454/340282366920938463463374607431768211455",
        b"0.999999",
    ),
];

/// Whether the report with each row's numbers comes back.
fn are_kept(alloc: Global, rows: &[(&[u8], &[u8], &[u8])]) -> Result<bool, Fail> {
    for (weight, fraction, decimals) in rows {
        let text = with_numbers(alloc, weight, fraction, decimals)?;
        if !is_kept(alloc, text.as_slice())? {
            return Ok(false);
        }
    }
    Ok(true)
}

// By hand, and by whole numbers of any size for those of 128 bits: reports that come back.
#[test]
fn numbers_at_their_limits(rt: HostRuntime) -> Result<(), Fail> {
    assert!(rt; are_kept(rt.alloc(), &NUMBERS)?);
    Ok(())
}
