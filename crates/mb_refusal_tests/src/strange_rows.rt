//! Rows that another hand put or changed: what each command makes of one that is no record.

use mb_desk::Status;
use mb_sessions::records::{
    BASIS, CERTIFICATE, FIRST_JOIN, HEAD, INDEPENDENCE, JOINS, MODEL, OF_M1, PATHS, REPORT, RULES,
    STARTS, TWO_BY_TWO,
};
use mb_sessions::{Step, first_wrong};
use std::test::Fail;

/// A dataset that isn't in its canonical text, since a combination has no record.
const SHORT: &str = "a,b,count\n1,1,3\n1,2,1\n2,1,1\n";

/// A dataset of other text under a name is a conflict for `dataset`, which reads no row, and no
/// record for the others.
const DATASETS: [Step; 14] = [
    Step::Row(1, "d1", &[SHORT]),
    Step::File("f", &[SHORT]),
    Step::File("g", &[INDEPENDENCE]),
    Step::Ends(
        Status::Registry,
        "dataset d1 f",
        "refused Conflict kind dataset name d1\n",
    ),
    Step::Ends(
        Status::Registry,
        "model m1 d1 g",
        "refused BadRecord kind dataset name d1\n",
    ),
    Step::Ends(
        Status::Registry,
        "export dataset d1 h",
        "refused BadRecord kind dataset name d1\n",
    ),
    Step::Row(2, "m1", &[MODEL]),
    Step::Row(3, "b1", BASIS),
    Step::Ends(
        Status::Registry,
        "analyse a1 b1",
        "refused BadRecord kind dataset name d1\n",
    ),
    Step::Done(
        "list",
        &["records 3\ndataset d1 28\nmodel m1 94\nbasis b1 665\n"],
    ),
    Step::Ends(
        Status::Registry,
        "remove dataset d1",
        "refused InUse kind dataset name d1 by m1\n",
    ),
    Step::Done("remove basis b1", &["removed basis b1\n"]),
    Step::Done("remove model m1", &["removed model m1\n"]),
    Step::Done("remove dataset d1", &["removed dataset d1\n"]),
];

/// The record of a model whose matrix has a line that is too short.
const CUT_MODEL: &str = "model 1
dataset d1
matrix 4 4
1 1 0 0
0 0 1 1
1 0 1
0 1 0 1
scale rows 1 2
base 1 1 1 1
end
";

/// A model with a wrong line.
const MODELS: [Step; 12] = [
    Step::Row(1, "d1", &[TWO_BY_TWO]),
    Step::Row(2, "m1", &[CUT_MODEL]),
    Step::Row(3, "b1", BASIS),
    Step::Ends(
        Status::Registry,
        "basis b2 m1",
        "refused BadRecord kind model name m1\n",
    ),
    Step::Ends(
        Status::Registry,
        "analyse a1 b1",
        "refused BadRecord kind model name m1\n",
    ),
    Step::Ends(
        Status::Registry,
        "export matrix m1 f",
        "refused BadRecord kind model name m1\n",
    ),
    Step::Ends(
        Status::Registry,
        "remove dataset d1",
        "refused BadRecord kind model name m1\n",
    ),
    Step::Ends(
        Status::Registry,
        "remove model m1",
        "refused InUse kind model name m1 by b1\n",
    ),
    Step::Row(2, "m0", &[MODEL]),
    Step::Ends(
        Status::Registry,
        "remove dataset d1",
        "refused InUse kind dataset name d1 by m0\n",
    ),
    Step::Done("export moves b1 f", &["wrote moves b1 bytes 14\n"]),
    Step::Rows(4),
];

/// Names that are none: `list` meets them all, `remove` those before the first that refers.
const NAMES: [Step; 19] = [
    Step::Row(1, "d1", &[TWO_BY_TWO]),
    Step::Row(2, "{}", &[MODEL]),
    Step::Row(2, "m1", &[MODEL]),
    Step::Ends(
        Status::Registry,
        "list",
        "refused BadRecord kind model name {}\n",
    ),
    Step::Ends(
        Status::Registry,
        "remove dataset d1",
        "refused InUse kind dataset name d1 by m1\n",
    ),
    Step::Done("remove model m1", &["removed model m1\n"]),
    Step::Ends(
        Status::Registry,
        "remove dataset d1",
        "refused BadRecord kind model name {}\n",
    ),
    Step::Row(1, "two\nlines", &[TWO_BY_TWO]),
    Step::Ends(
        Status::Registry,
        "list",
        "refused BadRecord kind dataset name two\nlines\n",
    ),
    Step::Row(2, "M1", &[MODEL]),
    Step::Row(2, "m1", &[MODEL]),
    Step::Ends(
        Status::Registry,
        "remove dataset d1",
        "refused BadRecord kind model name M1\n",
    ),
    Step::Done("remove model m1", &["removed model m1\n"]),
    Step::Row(3, "b1", BASIS),
    Step::Row(4, "", &[REPORT]),
    Step::Ends(
        Status::Registry,
        "remove basis b1",
        "refused BadRecord kind analysis name \n",
    ),
    Step::Done(
        "export certificate b1 f",
        &["wrote certificate b1 bytes 648\n"],
    ),
    Step::Row(5, "x", &["y"]),
    Step::Rows(7),
];

/// A certificate with a wrong line, and with one that leaves the grammar.
const CERTIFICATES: [Step; 20] = [
    Step::Row(1, "d1", &[TWO_BY_TWO]),
    Step::Row(2, "m1", &[MODEL]),
    Step::Row(
        3,
        "b1",
        &[OF_M1, HEAD, RULES, STARTS, "0 2 1 0 9\n", JOINS, PATHS],
    ),
    Step::File("f", &["1 3\n1 -1 0\n"]),
    Step::Ends(
        Status::Refused,
        "analyse a1 b1",
        "refused Certificate line 26 reason StepNotApplicable\n",
    ),
    Step::Ends(
        Status::Refused,
        "import b2 b1 f",
        "refused Certificate line 26 reason StepNotApplicable\n",
    ),
    Step::Done(
        "export certificate b1 g",
        &["wrote certificate b1 bytes 648\n"],
    ),
    Step::Ends(
        Status::Refused,
        "check g",
        "refused Certificate line 26 reason StepNotApplicable\n",
    ),
    Step::Row(3, "b2", &[OF_M1, HEAD, RULES, ONE_JOIN_LESS, JOINS, PATHS]),
    Step::Ends(
        Status::Refused,
        "analyse a1 b2",
        "refused Certificate line 26 reason PairMissing\n",
    ),
    Step::Row(
        3,
        "b3",
        &[
            OF_M1,
            HEAD,
            RULES,
            STARTS,
            FIRST_JOIN,
            JOINS,
            "paths 1\n0 1 -1\n",
        ],
    ),
    Step::Ends(
        Status::Registry,
        "analyse a1 b3",
        "refused BadRecord kind basis name b3\n",
    ),
    Step::Ends(
        Status::Registry,
        "import b4 b3 f",
        "refused BadRecord kind basis name b3\n",
    ),
    Step::Ends(
        Status::Registry,
        "export rules b3 g",
        "refused BadRecord kind basis name b3\n",
    ),
    Step::Done("remove basis b3", &["removed basis b3\n"]),
    Step::Row(3, "b3", CERTIFICATE),
    Step::Ends(
        Status::Registry,
        "analyse a1 b3",
        "refused BadRecord kind basis name b3\n",
    ),
    Step::Ends(
        Status::Registry,
        "remove model m1",
        "refused InUse kind model name m1 by b1\n",
    ),
    Step::Has(
        3,
        "b1",
        &[OF_M1, HEAD, RULES, STARTS, "0 2 1 0 9\n", JOINS, PATHS],
    ),
    Step::Rows(5),
];

/// The starts, and one join less.
const ONE_JOIN_LESS: &str = "starts 4
1 0 8
1 0 6
1 0 7
1 0 5
joins 16
";

/// A model with one margin over four cells.
const ONE_MARGIN: &str = "matrix 1 4
1 1 1 1
scale all
base 1 1 1 1
end
";

/// Records that don't fit: a certificate of another matrix than the model's, a model of another
/// number of cells than the dataset's.
const UNFIT: [Step; 14] = [
    Step::Row(1, "d1", &["a,count\n1,1\n2,1\n"]),
    Step::Row(2, "m1", &["model 1\ndataset d1\n", ONE_MARGIN]),
    Step::Row(3, "b1", BASIS),
    Step::Ends(
        Status::Registry,
        "analyse a1 b1",
        "refused BadRecord kind basis name b1\n",
    ),
    Step::Row(
        3,
        "b2",
        &[OF_M1, HEAD, RULES, STARTS, "0 2 1 0 9\n", JOINS, PATHS],
    ),
    Step::Ends(
        Status::Registry,
        "analyse a1 b2",
        "refused BadRecord kind basis name b2\n",
    ),
    Step::Row(2, "m2", &[MODEL]),
    Step::Row(
        3,
        "b3",
        &[
            "basis 1\nmodel m2\n",
            HEAD,
            RULES,
            STARTS,
            "0 2 1 0 9\n",
            JOINS,
            PATHS,
        ],
    ),
    Step::Ends(
        Status::Registry,
        "analyse a1 b3",
        "refused BadRecord kind model name m2\n",
    ),
    Step::Done(
        "basis b4 m1",
        &["stored basis b4\nlooks 6\nrules 4\nmoves 3\n"],
    ),
    Step::Ends(
        Status::Registry,
        "analyse a1 b4",
        "refused BadRecord kind model name m1\n",
    ),
    Step::Ends(
        Status::Registry,
        "report a1",
        "refused Unknown kind analysis name a1\n",
    ),
    Step::Rows(7),
    Step::Has(3, "b1", BASIS),
];

/// Records whose referred record isn't there.
const MISSING: [Step; 12] = [
    Step::Row(3, "b1", BASIS),
    Step::File("f", &["1 4\n1 -1 -1 1\n"]),
    Step::Ends(
        Status::Registry,
        "analyse a1 b1",
        "refused Unknown kind model name m1\n",
    ),
    Step::Ends(
        Status::Registry,
        "import b2 b1 f",
        "refused Unknown kind model name m1\n",
    ),
    Step::Rows(1),
    Step::Row(2, "m1", &[MODEL]),
    Step::Ends(
        Status::Registry,
        "analyse a1 b1",
        "refused Unknown kind dataset name d1\n",
    ),
    Step::Done(
        "basis b2 m1",
        &["stored basis b2\nlooks 17\nrules 9\nmoves 1\n"],
    ),
    Step::Done("import b3 b1 f", &["stored basis b3\nrules 9\nmoves 1\n"]),
    Step::Row(4, "a1", &[REPORT]),
    Step::Done("report a1", &[REPORT]),
    Step::Rows(5),
];

/// Reports: one with a wrong sum is no record, one under another name than its own is printed.
const REPORTS: [Step; 11] = [
    Step::Row(4, "a1", &[WRONG_SUM]),
    Step::Row(4, "a2", &[REPORT]),
    Step::Row(4, "a3", &[REPORT, "\n"]),
    Step::Ends(
        Status::Registry,
        "report a1",
        "refused BadRecord kind analysis name a1\n",
    ),
    Step::Done("report a2", &[REPORT]),
    Step::Ends(
        Status::Registry,
        "report a3",
        "refused BadRecord kind analysis name a3\n",
    ),
    Step::Row(3, "b0", BASIS),
    Step::Ends(
        Status::Registry,
        "remove basis b0",
        "refused BadRecord kind analysis name a1\n",
    ),
    Step::Done("remove analysis a1", &["removed analysis a1\n"]),
    Step::Done("remove analysis a3", &["removed analysis a3\n"]),
    Step::Done("remove basis b0", &["removed basis b0\n"]),
];

/// A report whose rings don't add up to its tables.
const WRONG_SUM: &str = "analysis a1
basis b1
model m1
dataset d1
observed 3 1 1 3
tables 6
rings 1 2 1 1
weight 16
fraction 34/70
decimals 0.485714
";

// By hand.
#[test]
fn datasets_that_are_none(rt: HostRuntime) -> Result<(), Fail> {
    assert_eq!(rt; first_wrong(&rt, rt.alloc(), &DATASETS)?, None);
    Ok(())
}

// By hand.
#[test]
fn models_that_are_none(rt: HostRuntime) -> Result<(), Fail> {
    assert_eq!(rt; first_wrong(&rt, rt.alloc(), &MODELS)?, None);
    Ok(())
}

// By hand: the first name in the order of bytes that is none or refers decides.
#[test]
fn names_that_are_none(rt: HostRuntime) -> Result<(), Fail> {
    assert_eq!(rt; first_wrong(&rt, rt.alloc(), &NAMES)?, None);
    Ok(())
}

// By hand: the line is that of the certificate's own text.
#[test]
fn certificates_with_a_wrong_line(rt: HostRuntime) -> Result<(), Fail> {
    assert_eq!(rt; first_wrong(&rt, rt.alloc(), &CERTIFICATES)?, None);
    Ok(())
}

// By hand: what doesn't fit is met before the certificate is checked.
#[test]
fn records_that_do_not_fit(rt: HostRuntime) -> Result<(), Fail> {
    assert_eq!(rt; first_wrong(&rt, rt.alloc(), &UNFIT)?, None);
    Ok(())
}

// By hand.
#[test]
fn records_that_are_missing(rt: HostRuntime) -> Result<(), Fail> {
    assert_eq!(rt; first_wrong(&rt, rt.alloc(), &MISSING)?, None);
    Ok(())
}

// By hand.
#[test]
fn reports_that_are_none(rt: HostRuntime) -> Result<(), Fail> {
    assert_eq!(rt; first_wrong(&rt, rt.alloc(), &REPORTS)?, None);
    Ok(())
}
