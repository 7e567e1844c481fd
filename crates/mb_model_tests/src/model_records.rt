//! Records of models.

use mb_kinds::{RecordFault, read_model_record, write_model};
use std::alloc::Global;
use std::test::Fail;

/// Whether a text is a record of this dataset whose written form is the text.
fn comes_back(alloc: Global, text: &[u8], wanted: &str) -> Result<bool, Fail> {
    let (dataset, model) = match read_model_record(alloc, text) {
        Ok(record) => record,
        Err(_) => return Ok(false),
    };
    if !mb_kinds::is_name(dataset.as_bytes()) {
        return Ok(false);
    }
    let written = write_model(alloc, dataset.as_str(), &model)?;
    Ok(dataset.as_str() == wanted && written.as_slice() == text)
}

/// The number of the first wrong line of a text, or 0 where it is a record.
fn wrong_line(alloc: Global, text: &[u8]) -> u32 {
    match read_model_record(alloc, text) {
        Ok(_) => 0,
        Err(RecordFault::Text { line }) => line,
        Err(RecordFault::OutOfMemory) => 1000,
    }
}

// The record of independence in a 2 x 2 table, and others by hand.
#[test]
fn records_come_back(rt: HostRuntime) -> Result<(), Fail> {
    let cases: [(&[u8], &str); 4] = [
        (
            b"model 1\ndataset d1\nmatrix 4 4\n1 1 0 0\n0 0 1 1\n1 0 1 0\n0 1 0 1\nscale rows 1 2\n\
            base 1 1 1 1\nend\n",
            "d1",
        ),
        (
            b"model 1\ndataset hw-3_x\nmatrix 2 3\n2 1 0\n0 1 2\nscale all\nbase 1 2 1\nend\n",
            "hw-3_x",
        ),
        (
            b"model 1\ndataset 0\nmatrix 1 1\n1000\nscale all\nbase 4294967295\nend\n",
            "0",
        ),
        (
            b"model 1\ndataset d1\nmatrix 2 2\n0 0\n1 1\nscale rows 1 2 1\nbase 7 9\nend\n",
            "d1",
        ),
    ];
    for (text, dataset) in cases {
        assert!(rt; comes_back(rt.alloc(), text, dataset)?);
    }
    Ok(())
}

/// The record of independence with one of its lines replaced.
fn with_line(alloc: Global, place: usize, line: &[u8]) -> Result<Vec<u8>, Fail> {
    let lines: [&[u8]; 10] = [
        b"model 1",
        b"dataset d1",
        b"matrix 4 4",
        b"1 1 0 0",
        b"0 0 1 1",
        b"1 0 1 0",
        b"0 1 0 1",
        b"scale rows 1 2",
        b"base 1 1 1 1",
        b"end",
    ];
    let mut text = Vec::new(alloc);
    for (k, own) in lines.iter().enumerate() {
        text.extend_from_slice(if k + 1 == place { line } else { own })?;
        text.push(b'\n')?;
    }
    Ok(text)
}

/// Places of lines, what stands there, and the first wrong line.
const LINES: [(usize, &[u8], u32); 48] = [
    (0, b"", 0),
    (1, b"", 1),
    (1, b"model 2", 1),
    (1, b"model  1", 1),
    (1, b" model 1", 1),
    (1, b"model 1\r", 1),
    (2, b"dataset", 2),
    (2, b"dataset ", 2),
    (2, b"dataset -d", 2),
    (2, b"dataset D", 2),
    (2, b"dataset d1 d2", 2),
    (2, b"dataset \xc3\xa9", 2),
    (3, b"matrix 4", 3),
    (3, b"matrix 4 4 4", 3),
    (3, b"matrix 0 4", 3),
    (3, b"matrix 4 0", 3),
    (3, b"matrix 65 4", 3),
    (3, b"matrix 4 65", 3),
    (3, b"matrix 04 4", 3),
    (3, b"matrix 3 4", 7),
    (3, b"matrix 5 4", 8),
    (3, b"matrix 4 5", 4),
    (4, b"1 1 0", 4),
    (4, b"1 1 0 0 0", 4),
    (4, b"1 1 0 -1", 4),
    (4, b"1 1 0 -0", 4),
    (5, b"0 0 1 1001", 5),
    (6, b"1 0 1 x", 6),
    (7, b"0 1  0 1", 7),
    (7, b"0 1 0 00", 7),
    (8, b"scale", 8),
    (8, b"scale rows", 8),
    (8, b"scale rows ", 8),
    (8, b"scale all 1", 8),
    (8, b"scale rows 0 1", 8),
    (8, b"scale rows 1 5", 8),
    (8, b"scale rows 1 3", 8),
    (8, b"scale rows 1 2 2", 8),
    (8, b"scale rows 1 4294967296", 8),
    (8, b"scale rows 3 4", 0),
    (8, b"scale all", 0),
    (9, b"base 1 1 1", 9),
    (9, b"base 1 1 1 1 1", 9),
    (9, b"base 1 1 1 0", 9),
    (9, b"base 1 1 1 4294967296", 9),
    (9, b"base 1 1 1 01", 9),
    (10, b"end ", 10),
    (10, b"end\n", 11),
];

// By hand: each line broken in turn, and each refusal of the whole at its line.
#[test]
fn broken_lines(rt: HostRuntime) -> Result<(), Fail> {
    for (place, line, wanted) in LINES {
        let text = with_line(rt.alloc(), place, line)?;
        assert!(rt; wrong_line(rt.alloc(), text.as_slice()) == wanted);
    }
    Ok(())
}

// By hand: no text at all, no line end, a matrix that is refused as a whole, and the first of two.
#[test]
fn other_texts(rt: HostRuntime) -> Result<(), Fail> {
    let cases: [(&[u8], u32); 9] = [
        (b"", 1),
        (b"\n", 1),
        (b"model 1", 1),
        (b"model 1\n", 2),
        (
            b"model 1\ndataset d1\nmatrix 2 2\n1 0\n1 0\nscale all\nbase 1 1\nend\n",
            5,
        ),
        (
            b"model 1\ndataset d1\nmatrix 1 2\n1 2\nscale all\nbase 0 x\nend\n",
            5,
        ),
        (
            b"model 1\ndataset d1\nmatrix 1 2\n1 1\nscale all\nbase 0 x\n",
            6,
        ),
        (
            b"model 1\ndataset d1\nmatrix 1 2\n1 1\nscale all\nbase 1 1\nend",
            7,
        ),
        (
            b"model 1\ndataset d1\nmatrix 1 2\n1 1\nscale all\nbase 1 1\nend\n\n",
            8,
        ),
    ];
    for (text, wanted) in cases {
        assert!(rt; wrong_line(rt.alloc(), text) == wanted);
    }
    Ok(())
}
