//! Sessions of words that are no request, and of models that are refused.

use mb_desk::Status;
use mb_sessions::records::{INDEPENDENCE, TWO_BY_TWO};
use mb_sessions::{Step, first_wrong};
use std::test::Fail;

/// Words that are no request leave files and rows as they are.
const NO_REQUEST: [Step; 25] = [
    Step::File("f", &[TWO_BY_TWO]),
    Step::Ends(Status::Words, "", "refused Words\n"),
    Step::Ends(Status::Words, "dataset D1 f", "refused Words\n"),
    Step::Ends(Status::Words, "dataset -d f", "refused Words\n"),
    Step::Ends(Status::Words, "dataset d1 f f", "refused Words\n"),
    Step::Ends(Status::Words, "dataset d1", "refused Words\n"),
    Step::Ends(Status::Words, "model m1 d1 f --matrix", "refused Words\n"),
    Step::Ends(
        Status::Words,
        "model m1 d1 f --matrix f --matrix f",
        "refused Words\n",
    ),
    Step::Ends(
        Status::Words,
        "basis b1 m1 --order gradlex",
        "refused Words\n",
    ),
    Step::Ends(
        Status::Words,
        "basis b1 m1 --pairs 1000001",
        "refused Words\n",
    ),
    Step::Ends(Status::Words, "basis b1 m1 --pairs 01", "refused Words\n"),
    Step::Ends(Status::Words, "import b2 b1 f --limit 0", "refused Words\n"),
    Step::Ends(
        Status::Words,
        "import b2 b1 f --limit 100001",
        "refused Words\n",
    ),
    Step::Ends(Status::Words, "analyse a1", "refused Words\n"),
    Step::Ends(
        Status::Words,
        "analyse a1 b1 --workers 0",
        "refused Words\n",
    ),
    Step::Ends(
        Status::Words,
        "analyse a1 b1 --limit 5 --limit 5",
        "refused Words\n",
    ),
    Step::Ends(
        Status::Words,
        "analyse a1 b1 --limit 2000001",
        "refused Words\n",
    ),
    Step::Ends(Status::Words, "report", "refused Words\n"),
    Step::Ends(Status::Words, "list x", "refused Words\n"),
    Step::Ends(Status::Words, "export model m1 f", "refused Words\n"),
    Step::Ends(Status::Words, "export moves b1", "refused Words\n"),
    Step::Ends(Status::Words, "remove models m1", "refused Words\n"),
    Step::Ends(Status::Words, "List", "refused Words\n"),
    Step::Rows(0),
    Step::Holds("f", &[TWO_BY_TWO]),
];

/// A name of 65 characters is none, one of 64 is a name.
const LONG_NAMES: [Step; 5] = [
    Step::File("f", &[TWO_BY_TWO]),
    Step::Ends(
        Status::Words,
        "dataset 0123456789012345678901234567890123456789012345678901234567890123x f",
        "refused Words\n",
    ),
    Step::Done(
        "dataset _123456789012345678901234567890123456789012345678901234567890123 f",
        &[
            "stored dataset _123456789012345678901234567890123456789012345678901234567890123\n",
            "cells 4 total 8\n",
        ],
    ),
    Step::Has(
        1,
        "_123456789012345678901234567890123456789012345678901234567890123",
        &[TWO_BY_TWO],
    ),
    Step::Rows(1),
];

/// Both files are read, then the dataset is looked up, then the texts are judged.
const ORDER: [Step; 13] = [
    Step::Ends(Status::Refused, "model m1 d9 g", "refused NoFile file 1\n"),
    Step::File("g", &["kind ="]),
    Step::Ends(
        Status::Refused,
        "model m1 d9 g --matrix h",
        "refused NoFile file 2\n",
    ),
    Step::File("h", &["4 4\n1"]),
    Step::Ends(
        Status::Registry,
        "model m1 d9 g --matrix h",
        "refused Unknown kind dataset name d9\n",
    ),
    Step::File("f", &[TWO_BY_TWO]),
    Step::Done("dataset d1 f", &["stored dataset d1\ncells 4 total 8\n"]),
    Step::Ends(
        Status::Refused,
        "model m1 d1 g --matrix h",
        "refused Toml file 1\n",
    ),
    Step::File("g", &[INDEPENDENCE]),
    Step::Done(
        "model m1 d1 g --matrix h",
        &["stored model m1\nmargins 4 cells 4\n"],
    ),
    Step::Done(
        "model m1 d1 g",
        &["unchanged model m1\nmargins 4 cells 4\n"],
    ),
    Step::File(
        "g",
        &["kind = \"hierarchical\"\ngenerators = [[\"b\"], [\"a\"]]\n"],
    ),
    Step::Ends(
        Status::Registry,
        "model m1 d1 g",
        "refused Conflict kind model name m1\n",
    ),
];

/// The refusals of a model file for a dataset of two factors with two levels each.
const MODELS: [Step; 37] = [
    Step::Row(1, "d1", &[TWO_BY_TWO]),
    Step::File("g", &["kind = \"loglinear\"\n"]),
    Step::Ends(Status::Refused, "model m d1 g", "refused UnknownKind\n"),
    Step::File("g", &["kind = 1\n"]),
    Step::Ends(
        Status::Refused,
        "model m d1 g",
        "refused MissingKey key kind\n",
    ),
    Step::File("g", &["kind = \"hierarchical\"\n"]),
    Step::Ends(
        Status::Refused,
        "model m d1 g",
        "refused MissingKey key generators\n",
    ),
    Step::File("g", &["kind = \"hierarchical\"\ngenerators = [[\"c\"]]\n"]),
    Step::Ends(Status::Refused, "model m d1 g", "refused UnknownFactor\n"),
    Step::File("g", &["kind = \"hierarchical\"\ngenerators = []\n"]),
    Step::Ends(Status::Refused, "model m d1 g", "refused EmptyGenerators\n"),
    Step::File("g", &[INDEPENDENCE, "base = [1, 1, 1]\n"]),
    Step::Ends(
        Status::Refused,
        "model m d1 g",
        "refused CellCount matrix 3 data 4\n",
    ),
    Step::File("g", &[INDEPENDENCE, "base = [1, 1, 1, 0]\n"]),
    Step::Ends(
        Status::Refused,
        "model m d1 g",
        "refused MissingKey key base\n",
    ),
    Step::File(
        "g",
        &["kind = \"rasch\"\nperson = \"a\"\nitem = \"b\"\nresponse = \"b\"\n"],
    ),
    Step::Ends(Status::Refused, "model m d1 g", "refused NotBinary\n"),
    Step::File("g", &["kind = \"rasch\"\nperson = \"a\"\n"]),
    Step::Ends(
        Status::Refused,
        "model m d1 g",
        "refused MissingKey key item\n",
    ),
    Step::File("g", &["kind = \"hardy-weinberg\"\nclasses = 11\n"]),
    Step::Ends(
        Status::Refused,
        "model m d1 g",
        "refused MissingKey key classes\n",
    ),
    Step::File("g", &["kind = \"hardy-weinberg\"\nclasses = 2\n"]),
    Step::Ends(
        Status::Refused,
        "model m d1 g",
        "refused CellCount matrix 3 data 4\n",
    ),
    Step::File("g", &["kind = \"matrix\"\nscale = [0]\n"]),
    Step::Ends(
        Status::Refused,
        "model m d1 g",
        "refused MissingKey key matrix\n",
    ),
    Step::File("h", &["1 4\n1 1 1 x\n"]),
    Step::Ends(
        Status::Refused,
        "model m d1 g --matrix h",
        "refused BadNumber file 2 token 6\n",
    ),
    Step::File("h", &["1 5\n1 1 1 1 1\n"]),
    Step::Ends(
        Status::Refused,
        "model m d1 g --matrix h",
        "refused CellCount matrix 5 data 4\n",
    ),
    Step::File("h", &["2 4\n1 1 1 0\n2 2 2 0\n"]),
    Step::Ends(
        Status::Refused,
        "model m d1 g --matrix h",
        "refused ZeroColumn cell 3\n",
    ),
    Step::File("h", &["1 4\n1 1 -1 1001\n"]),
    Step::Ends(
        Status::Refused,
        "model m d1 g --matrix h",
        "refused Negative row 0 cell 2\n",
    ),
    Step::File("h", &["1 4\n1 1 1 1\n"]),
    Step::Ends(
        Status::Refused,
        "model m d1 g --matrix h",
        "refused BadScaleRow row 0\n",
    ),
    Step::Rows(1),
    Step::Has(1, "d1", &[TWO_BY_TWO]),
];

/// Quasi-independence is of two factors.
const FACTORS: [Step; 6] = [
    Step::File("f", &["a,count\n1,1\n2,1\n"]),
    Step::Done("dataset d1 f", &["stored dataset d1\ncells 2 total 2\n"]),
    Step::File("g", &["kind = \"quasi-independence\"\n"]),
    Step::Ends(Status::Refused, "model m1 d1 g", "refused NotTwoFactors\n"),
    Step::Rows(1),
    Step::Done("list", &["records 1\ndataset d1 16\n"]),
];

// By hand.
#[test]
fn words_that_are_no_request(rt: HostRuntime) -> Result<(), Fail> {
    assert_eq!(rt; first_wrong(&rt, rt.alloc(), &NO_REQUEST)?, None);
    assert_eq!(rt; first_wrong(&rt, rt.alloc(), &LONG_NAMES)?, None);
    Ok(())
}

// By hand: what is read and looked up before what.
#[test]
fn the_order_of_work_for_a_model(rt: HostRuntime) -> Result<(), Fail> {
    assert_eq!(rt; first_wrong(&rt, rt.alloc(), &ORDER)?, None);
    Ok(())
}

// By hand: the first cause of each, and no row.
#[test]
fn models_refused(rt: HostRuntime) -> Result<(), Fail> {
    assert_eq!(rt; first_wrong(&rt, rt.alloc(), &MODELS)?, None);
    assert_eq!(rt; first_wrong(&rt, rt.alloc(), &FACTORS)?, None);
    Ok(())
}
