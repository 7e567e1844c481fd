//! Datasets as CSV text.

use mb_data::{DataFault, Dataset, Entry, read_dataset, write_dataset};
use mb_tables::OutOfMemory;
use mb_text::{push_number, push_text};
use std::test::Fail;

/// Why a text is no dataset, or None where it is one.
pub(crate) fn fault_of(rt: &HostRuntime, text: &[u8]) -> Option<DataFault> {
    match read_dataset(rt.alloc(), text) {
        Ok(_) => None,
        Err(fault) => Some(fault),
    }
}

// By hand: the header first, then record by record, then the whole.
#[test]
fn faults_of_headers(rt: HostRuntime) -> Result<(), Fail> {
    let cases: [(&[u8], DataFault); 9] = [
        (b"", DataFault::Csv { row: 1 }),
        (b"\xef\xbb\xbf", DataFault::Csv { row: 1 }),
        (b"a\xff,count\nx,1\n", DataFault::Csv { row: 1 }),
        (
            b"\xef\xbb\xbf\xef\xbb\xbfa,count\nx,1\n",
            DataFault::Csv { row: 1 },
        ),
        (b"a,\"\xef\xbb\xbfb\",count\n", DataFault::Csv { row: 1 }),
        (b"a,a,b\n", DataFault::Repeated { row: 1 }),
        (b"a,count,count\nx,1,1\n", DataFault::Repeated { row: 1 }),
        (b"a,Count\nx,1\n", DataFault::NoCountColumn),
        (b"count\n1\n", DataFault::NoFactor),
    ];
    for (text, wanted) in cases {
        assert!(rt; fault_of(&rt, text) == Some(wanted));
    }
    Ok(())
}

#[test]
fn faults_of_records(rt: HostRuntime) -> Result<(), Fail> {
    let cases: [(&[u8], DataFault); 18] = [
        (b"a,count\nx,1,2\n", DataFault::Csv { row: 2 }),
        (b"a,count\nx\n", DataFault::Csv { row: 2 }),
        (b"a,count\nx,1\ny\xff,2\n", DataFault::Csv { row: 3 }),
        (b"a,count\nx,3.0\n", DataFault::BadCount { row: 2 }),
        (b"a,count\nx,-1\n", DataFault::BadCount { row: 2 }),
        (b"a,count\nx,+1\n", DataFault::BadCount { row: 2 }),
        (b"a,count\nx,\n", DataFault::BadCount { row: 2 }),
        (b"a,count\nx,1 2\n", DataFault::BadCount { row: 2 }),
        (b"a,count\nx,\t1\n", DataFault::BadCount { row: 2 }),
        (b"a,count\nx,**\n", DataFault::BadCount { row: 2 }),
        (b"a,count\nx,1\nx,x\n", DataFault::BadCount { row: 3 }),
        (b"a,count\nx,1\nx,*\n", DataFault::Repeated { row: 3 }),
        (b"a,count\nx,*\nx,*\n", DataFault::Repeated { row: 3 }),
        (b"a,count\nx,1000000\ny,1\nz\n", DataFault::TotalTooLarge),
        (
            b"a,count\nx,9999999999999999999999999999999999999999999999999\n",
            DataFault::TotalTooLarge,
        ),
        (b"a,count\n", DataFault::NoCell),
        (b"a,count\nx,*\n", DataFault::NoCell),
        (b"a,b,count\nx,u,*\ny,u,*\n", DataFault::NoCell),
    ];
    for (text, wanted) in cases {
        assert!(rt; fault_of(&rt, text) == Some(wanted));
    }
    Ok(())
}

/// A text, read and written again.
fn rewritten(rt: &HostRuntime, text: &[u8]) -> Result<Vec<u8>, DataFault> {
    let dataset: Dataset = read_dataset(rt.alloc(), text)?;
    let written = write_dataset(rt.alloc(), &dataset)?;
    Ok(written)
}

/// Whether a text is written as another, and that one as itself.
fn is_written(rt: &HostRuntime, text: &[u8], wanted: &[u8]) -> bool {
    match (rewritten(rt, text), rewritten(rt, wanted)) {
        (Ok(once), Ok(again)) => once.as_slice() == wanted && again.as_slice() == wanted,
        _ => false,
    }
}

// By hand: a byte order mark, line ends, spaces, leading zeros and the order of the records go.
#[test]
fn read_and_written(rt: HostRuntime) -> Result<(), Fail> {
    let cases: [(&[u8], &[u8]); 9] = [
        (b"a,count\nx,1\n", b"a,count\nx,1\n"),
        (
            b"\xef\xbb\xbfcount,a\r\n 007 ,x\r\n *  ,y",
            b"a,count\nx,7\ny,*\n",
        ),
        (
            b"a,b,count\nx,u,1\ny,v,2\n",
            b"a,b,count\nx,u,1\nx,v,0\ny,u,0\ny,v,2\n",
        ),
        (
            b"a,b,count\ny,v,2\nx,v,*\nx,u,1\n",
            b"a,b,count\ny,v,2\ny,u,0\nx,v,*\nx,u,1\n",
        ),
        (b"a,count\nz,1\nb,2\n", b"a,count\nz,1\nb,2\n"),
        (
            b"\"a,b\",count\n\"x\"\"y\",3\n\"p\nq\",4\n,5\n",
            b"\"a,b\",count\n\"x\"\"y\",3\n\"p\nq\",4\n,5\n",
        ),
        (
            b"a,b,count\n1,12,1\n11,2,2\n",
            b"a,b,count\n1,12,1\n1,2,0\n11,12,0\n11,2,2\n",
        ),
        (b"a,count\nx,0\ny,1000000\n", b"a,count\nx,0\ny,1000000\n"),
        (
            b"site,grade,count\r\nnorth,\"a, old\",3\r\nnorth,b,*\r\nsouth,\"a, old\",1\r\n",
            b"site,grade,count\nnorth,\"a, old\",3\nnorth,b,*\nsouth,\"a, old\",1\nsouth,b,0\n",
        ),
    ];
    for (text, wanted) in cases {
        assert!(rt; is_written(&rt, text, wanted));
    }
    Ok(())
}

/// A text of one factor: so many structural zeros, and then so many cells with a count of 1.
pub(crate) fn long_text(rt: &HostRuntime, zeros: u32, cells: u32) -> Result<Vec<u8>, OutOfMemory> {
    let mut text = Vec::from_slice(rt.alloc(), b"a,count\n")?;
    for k in 0..zeros {
        push_number(&mut text, k)?;
        push_text(&mut text, b",*\n")?;
    }
    for k in 0..cells {
        push_text(&mut text, b"c")?;
        push_number(&mut text, k)?;
        push_text(&mut text, b",1\n")?;
    }
    Ok(text)
}

/// How many cells such a text has.
fn cells_of(rt: &HostRuntime, zeros: u32, cells: u32) -> Result<u32, DataFault> {
    let text = long_text(rt, zeros, cells)?;
    let dataset = read_dataset(rt.alloc(), text.as_slice())?;
    Ok(dataset.cells())
}

#[test]
fn limits_of_cells(rt: HostRuntime) -> Result<(), Fail> {
    let cases: [(u32, u32, Result<u32, DataFault>); 5] = [
        (0, 64, Ok(64)),
        (0, 65, Err(DataFault::TooManyCells)),
        (2000, 1, Ok(1)),
        (2000, 0, Err(DataFault::NoCell)),
        (2000, 65, Err(DataFault::TooManyCells)),
    ];
    for (zeros, cells, wanted) in cases {
        assert!(rt; cells_of(&rt, zeros, cells) == wanted);
    }
    Ok(())
}

/// Sixty factors of ten levels each.
fn wide_text(rt: &HostRuntime) -> Result<Vec<u8>, OutOfMemory> {
    let mut text = Vec::new(rt.alloc());
    for k in 0..60u32 {
        push_text(&mut text, b"f")?;
        push_number(&mut text, k)?;
        push_text(&mut text, b",")?;
    }
    push_text(&mut text, b"count\n")?;
    for level in 0..10u32 {
        for _ in 0..60u32 {
            push_number(&mut text, level)?;
            push_text(&mut text, b",")?;
        }
        push_text(&mut text, b"1\n")?;
    }
    Ok(text)
}

/// What is wrong with it.
fn wide_fault(rt: &HostRuntime) -> Result<Option<DataFault>, OutOfMemory> {
    let text = wide_text(rt)?;
    Ok(fault_of(rt, text.as_slice()))
}

#[test]
fn sixty_factors(rt: HostRuntime) -> Result<(), Fail> {
    assert!(rt; wide_fault(&rt) == Ok(Some(DataFault::TooManyCells)));
    Ok(())
}
