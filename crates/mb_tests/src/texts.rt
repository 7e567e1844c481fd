//! 4ti2 text.

use mb_moves::{
    Grid, GridFault, NoTable, Tested, read_matrix, read_moves, table_of_file, test_moves,
    write_matrix, write_moves,
};
use std::alloc::AllocError;
use std::test::Fail;

const M22: &[u8] = b"4 4\n1 1 0 0\n0 0 1 1\n1 0 1 0\n0 1 0 1\n";

// By hand: the first fault from the left, tokens counted from 1 with the two sizes.
#[test]
fn first_faults_of_matrices(rt: HostRuntime) -> Result<(), Fail> {
    let cases: [(&[u8], GridFault); 16] = [
        (b"", GridFault::NoSize),
        (b"4", GridFault::NoSize),
        (b"0 4", GridFault::NoSize),
        (b"65 4", GridFault::NoSize),
        (b"4 65", GridFault::NoSize),
        (b"4 0", GridFault::NoSize),
        (b"+ 4", GridFault::NoSize),
        (b"99999999999999999999999 4", GridFault::NoSize),
        (
            b"64 64",
            GridFault::TooFew {
                found: 0,
                wanted: 4096,
            },
        ),
        (
            b"1 2\n1",
            GridFault::TooFew {
                found: 1,
                wanted: 2,
            },
        ),
        (b"1 2\n1 -", GridFault::BadNumber { token: 4 }),
        (b"1 2\n1\xc2\xa01", GridFault::BadNumber { token: 3 }),
        (b"1 2\n2147483648 x", GridFault::TooWideNumber { token: 3 }),
        (b"1 2\n1 -2147483648", GridFault::TooWideNumber { token: 4 }),
        (b"1 2\n1 2 3", GridFault::TooMany { wanted: 2 }),
        (b"1 1\n1 x", GridFault::TooMany { wanted: 1 }),
    ];
    for (text, wanted) in cases {
        match read_matrix(rt.alloc(), text) {
            Ok(_) => assert!(rt; false, "accepted"),
            Err(fault) => assert_eq!(rt; fault, wanted),
        }
    }
    Ok(())
}

// Read and written again: signs, zeros and blanks go, and a row has a line.
#[test]
fn read_and_written(rt: HostRuntime) -> Result<(), Fail> {
    let grids: [(&[u8], &[u8]); 3] = [
        (M22, M22),
        (b" 2\t1\x0b+007 \r\n -0\x0c", b"2 1\n7\n0\n"),
        (
            b"1 2 -2147483647 2147483647",
            b"1 2\n-2147483647 2147483647\n",
        ),
    ];
    for (text, written) in grids {
        let grid = read_matrix(rt.alloc(), text)?;
        assert!(rt; write_matrix(rt.alloc(), &grid)?.as_slice() == written);
    }
    let lists: [(&[u8], &[u8]); 3] = [
        (b"0 4", b"0 4\n"),
        (b"1 4 -1 1 1 -1", b"1 4\n-1 1 1 -1\n"),
        (b"2 1\n+3\n-04", b"2 1\n3\n-4\n"),
    ];
    for (text, written) in lists {
        let moves = read_moves(rt.alloc(), text)?;
        assert!(rt; write_moves(rt.alloc(), &moves)?.as_slice() == written);
    }
    Ok(())
}

/// What the rows of a text are to the matrix of another.
fn tested(rt: &HostRuntime, matrix: &[u8], text: &[u8]) -> Result<Tested, GridFault> {
    let grid: Grid = read_matrix(rt.alloc(), matrix)?;
    test_moves(rt.alloc(), &grid, text)
}

// By hand: the margins of each row, past 64 bits too; faults of the text come first.
#[test]
fn rows_against_a_matrix(rt: HostRuntime) -> Result<(), Fail> {
    let wide: &[u8] = b"1 3\n2147483647 2147483647 2147483647";
    let cases: [(&[u8], &[u8], Result<Tested, GridFault>); 8] = [
        (M22, b"0 4", Ok(Tested::Moves { count: 0 })),
        (
            M22,
            b"2 4\n1 -1 -1 1\n0 0 0 0",
            Ok(Tested::Moves { count: 2 }),
        ),
        (
            M22,
            b"2 4\n1 -1 -1 1\n1 -1 1 -1",
            Ok(Tested::NotAMove { row: 2 }),
        ),
        (
            M22,
            b"2 4\n0 1 0 -1\n1 1 1 1",
            Ok(Tested::NotAMove { row: 1 }),
        ),
        (M22, b"1 3\n1 1 1", Ok(Tested::WidthDiffers { moves: 3 })),
        (M22, b"1 3\n1 1 x", Err(GridFault::BadNumber { token: 5 })),
        (
            M22,
            b"2 4\n1 1 1 1\n0",
            Err(GridFault::TooFew {
                found: 5,
                wanted: 8,
            }),
        ),
        (wide, wide, Ok(Tested::NotAMove { row: 1 })),
    ];
    for (matrix, text, wanted) in cases {
        assert!(rt; tested(&rt, matrix, text) == wanted);
    }
    Ok(())
}

/// So many zeros, each on a line, after a first line.
fn zero_rows(rt: &HostRuntime, head: &[u8], rows: u32) -> Result<Vec<u8>, AllocError> {
    let mut text = Vec::from_slice(rt.alloc(), head)?;
    for _ in 0..rows {
        text.extend_from_slice(b"0\n")?;
    }
    Ok(text)
}

/// How many moves a text says.
fn count_of(rt: &HostRuntime, text: &[u8]) -> Result<u32, GridFault> {
    let moves = read_moves(rt.alloc(), text)?;
    Ok(moves.len())
}

// The most moves of a list, and one row more, stated and not.
#[test]
fn the_most_moves(rt: HostRuntime) -> Result<(), Fail> {
    let mut text = zero_rows(&rt, b"1000064 1\n", 1_000_064)?;
    assert!(rt; count_of(&rt, text.as_slice()) == Ok(1_000_064));
    text.push(b'0')?;
    assert!(rt; count_of(&rt, text.as_slice()) == Err(GridFault::TooMany { wanted: 1_000_064 }));
    assert!(rt; count_of(&rt, b"1000065 1\n") == Err(GridFault::NoSize));
    Ok(())
}

/// The written form of the matrix of a text: one part, 1,000 zeros, and another part.
fn with_zeros(rt: &HostRuntime, front: &[u8], back: &[u8]) -> Result<Vec<u8>, GridFault> {
    let mut text = Vec::from_slice(rt.alloc(), front)?;
    for _ in 0..1_000 {
        text.push(b'0')?;
    }
    text.extend_from_slice(back)?;
    let grid = read_matrix(rt.alloc(), text.as_slice())?;
    Ok(write_matrix(rt.alloc(), &grid)?)
}

// A token of 1,000 zeros is 0, and with a digit after them that digit, as a size and as an entry.
#[test]
fn long_tokens(rt: HostRuntime) -> Result<(), Fail> {
    let cases: [(&[u8], &[u8], &[u8]); 5] = [
        (b"1 1 ", b"", b"1 1\n0\n"),
        (b"1 1 ", b"7", b"1 1\n7\n"),
        (b"1 1 -", b"2147483647", b"1 1\n-2147483647\n"),
        (b"", b"1 1 5", b"1 1\n5\n"),
        (b"1 +", b"2 5 6", b"1 2\n5 6\n"),
    ];
    for (front, back, wanted) in cases {
        let written = with_zeros(&rt, front, back)?;
        assert!(rt; written.as_slice() == wanted);
    }
    let faults: [(&[u8], &[u8], GridFault); 4] = [
        (b"1 1 ", b"x", GridFault::BadNumber { token: 3 }),
        (
            b"1 1 ",
            b"2147483648",
            GridFault::TooWideNumber { token: 3 },
        ),
        (b"", b" 1", GridFault::NoSize),
        (b"1 ", b"65", GridFault::NoSize),
    ];
    for (front, back, wanted) in faults {
        match with_zeros(&rt, front, back) {
            Ok(_) => assert!(rt; false, "accepted"),
            Err(fault) => assert_eq!(rt; fault, wanted),
        }
    }
    Ok(())
}

/// How many cells the table of a table file has, over so many cells.
fn cells_of_table(rt: &HostRuntime, text: &[u8], cells: u32) -> Result<u32, NoTable> {
    match read_moves(rt.alloc(), text) {
        Ok(file) => {
            let table = table_of_file(rt.alloc(), &file, cells)?;
            Ok(table.len())
        }
        Err(_) => Err(NoTable::NotATable),
    }
}

// A table file has one row of the width, counts of 0 or more that add up to 1,000,000 at most.
#[test]
fn tables_of_files(rt: HostRuntime) -> Result<(), Fail> {
    let cases: [(&[u8], u32, Result<u32, NoTable>); 9] = [
        (b"1 4\n3 1 1 3", 4, Ok(4)),
        (b"1 2\n999999 1", 2, Ok(2)),
        (b"1 2\n0 0", 2, Ok(2)),
        (b"1 2\n1000000 1", 2, Err(NoTable::NotATable)),
        (b"1 2\n2147483647 2147483647", 2, Err(NoTable::NotATable)),
        (b"1 2\n1 -1", 2, Err(NoTable::NotATable)),
        (b"1 2\n1 1", 3, Err(NoTable::NotATable)),
        (b"0 2", 2, Err(NoTable::NotATable)),
        (b"2 2\n1 1\n1 1", 2, Err(NoTable::NotATable)),
    ];
    for (text, cells, wanted) in cases {
        assert!(rt; cells_of_table(&rt, text, cells) == wanted);
    }
    Ok(())
}
