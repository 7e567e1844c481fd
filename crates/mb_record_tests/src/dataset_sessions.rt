//! Sessions of datasets: kept, listed, exported and taken out.

use mb_desk::Status;
use mb_sessions::records::{INDEPENDENCE, MODEL, TWO_BY_TWO};
use mb_sessions::{Step, first_wrong};
use std::test::Fail;

/// A dataset is kept once; one of another text under its name is a conflict; while a model refers
/// to it, it stays.
const KEPT: [Step; 26] = [
    Step::Done("list", &["records 0\n"]),
    Step::Ends(Status::Refused, "dataset d1 f", "refused NoFile file 1\n"),
    Step::File("f", &[TWO_BY_TWO]),
    Step::Done("dataset d1 f", &["stored dataset d1\ncells 4 total 8\n"]),
    Step::Done("list", &["records 1\ndataset d1 34\n"]),
    Step::Done("dataset d1 f", &["unchanged dataset d1\ncells 4 total 8\n"]),
    Step::File("f", &["a,b,count\n1,1,3\n1,2,1\n2,1,1\n2,2,4\n"]),
    Step::Ends(
        Status::Registry,
        "dataset d1 f",
        "refused Conflict kind dataset name d1\n",
    ),
    Step::Has(1, "d1", &[TWO_BY_TWO]),
    Step::File("g", &[INDEPENDENCE]),
    Step::Done("model m1 d1 g", &["stored model m1\nmargins 4 cells 4\n"]),
    Step::Has(2, "m1", &[MODEL]),
    Step::Rows(2),
    Step::Ends(
        Status::Registry,
        "remove dataset d1",
        "refused InUse kind dataset name d1 by m1\n",
    ),
    Step::Rows(2),
    Step::Done("list", &["records 2\ndataset d1 34\nmodel m1 94\n"]),
    Step::Done("remove model m1", &["removed model m1\n"]),
    Step::Ends(
        Status::Registry,
        "report zz",
        "refused Unknown kind analysis name zz\n",
    ),
    Step::Ends(
        Status::Registry,
        "remove model m1",
        "refused Unknown kind model name m1\n",
    ),
    Step::Done("remove dataset d1", &["removed dataset d1\n"]),
    Step::Rows(0),
    Step::Ends(
        Status::Registry,
        "model m1 d1 g",
        "refused Unknown kind dataset name d1\n",
    ),
    Step::Done("dataset d1 f", &["stored dataset d1\ncells 4 total 9\n"]),
    Step::Done("dataset d-2 f", &["stored dataset d-2\ncells 4 total 9\n"]),
    Step::Done("list", &["records 2\ndataset d-2 34\ndataset d1 34\n"]),
    Step::Rows(2),
];

/// Line ends of two bytes, a level in quotes and a structural zero, and the canonical text.
const QUOTED: [Step; 10] = [
    Step::File(
        "f",
        &["site,grade,count\r\nnorth,\"a, old\",3\r\nnorth,b,*\r\nsouth,\"a, old\",1\r\n"],
    ),
    Step::Done("dataset d2 f", &["stored dataset d2\ncells 3 total 4\n"]),
    Step::Has(1, "d2", &[CANONICAL]),
    Step::Done("export dataset d2 g", &["wrote dataset d2 bytes 71\n"]),
    Step::Holds("g", &[CANONICAL]),
    Step::Done("dataset d2 g", &["unchanged dataset d2\ncells 3 total 4\n"]),
    Step::File(
        "f",
        &[
            "site,grade,count\r\nnorth,\"a, old\",3\r\nnorth,b,*\r\n",
            "south,\"a, old\",1\r\nnorth,b,2\r\n",
        ],
    ),
    Step::Ends(
        Status::Refused,
        "dataset d3 f",
        "refused Repeated file 1 record 5\n",
    ),
    Step::Ends(
        Status::Registry,
        "export dataset d3 g",
        "refused Unknown kind dataset name d3\n",
    ),
    Step::Rows(1),
];

/// The canonical text of that dataset.
const CANONICAL: &str = "site,grade,count
north,\"a, old\",3
north,b,*
south,\"a, old\",1
south,b,0
";

/// Each refusal of a dataset's text, by the record where it is met.
const REFUSED: [Step; 18] = [
    Step::File("f", &[""]),
    Step::Ends(
        Status::Refused,
        "dataset d f",
        "refused Csv file 1 record 1\n",
    ),
    Step::File("f", &["a,count\n1,2,3\n"]),
    Step::Ends(
        Status::Refused,
        "dataset d f",
        "refused Csv file 1 record 2\n",
    ),
    Step::File("f", &["a,b\n1,1\n"]),
    Step::Ends(
        Status::Refused,
        "dataset d f",
        "refused NoCountColumn file 1\n",
    ),
    Step::File("f", &["count\n1\n"]),
    Step::Ends(Status::Refused, "dataset d f", "refused NoFactor file 1\n"),
    Step::File("f", &["a,count\n1,x\n"]),
    Step::Ends(
        Status::Refused,
        "dataset d f",
        "refused BadCount file 1 record 2\n",
    ),
    Step::File("f", &["a,count\n1,1000000\n2,1\n"]),
    Step::Ends(
        Status::Refused,
        "dataset d f",
        "refused TotalTooLarge file 1\n",
    ),
    Step::File("f", &["a,count\n1,*\n"]),
    Step::Ends(Status::Refused, "dataset d f", "refused NoCell file 1\n"),
    Step::File(
        "f",
        &["a,b,count\n1,1,1\n2,2,1\n3,3,1\n4,4,1\n5,5,1\n6,6,1\n7,7,1\n8,8,1\n9,9,1\n"],
    ),
    Step::Ends(
        Status::Refused,
        "dataset d f",
        "refused TooManyCells file 1\n",
    ),
    Step::Rows(0),
    Step::Done("list", &["records 0\n"]),
];

// By hand: what is printed, and the rows that are left.
#[test]
fn datasets_kept_and_taken_out(rt: HostRuntime) -> Result<(), Fail> {
    assert_eq!(rt; first_wrong(&rt, rt.alloc(), &KEPT)?, None);
    Ok(())
}

// By hand: records in quotes, and the combination without a record.
#[test]
fn datasets_in_their_canonical_text(rt: HostRuntime) -> Result<(), Fail> {
    assert_eq!(rt; first_wrong(&rt, rt.alloc(), &QUOTED)?, None);
    Ok(())
}

// By hand: the first refusal of each text, and no row.
#[test]
fn datasets_refused(rt: HostRuntime) -> Result<(), Fail> {
    assert_eq!(rt; first_wrong(&rt, rt.alloc(), &REFUSED)?, None);
    Ok(())
}
