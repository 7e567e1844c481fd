//! Sessions of exact tests: the report of each kind of model, its limits, and what it is kept as.

use mb_desk::Status;
use mb_sessions::records::{BASIS, INDEPENDENCE, MODEL, OF_M1, REPORT, TWO_BY_TWO};
use mb_sessions::{Step, first_wrong};
use std::test::Fail;

/// Independence of two by two: limits, the report, and an analysis that is kept once.
const INDEPENDENT: [Step; 24] = [
    Step::Row(1, "d1", &[TWO_BY_TWO]),
    Step::Row(2, "m1", &[MODEL]),
    Step::Row(3, "b1", BASIS),
    Step::Ends(
        Status::Registry,
        "analyse a1 b2",
        "refused Unknown kind basis name b2\n",
    ),
    Step::Ends(
        Status::Limit,
        "analyse a1 b1 --limit 4",
        "refused TooLarge seen 5\n",
    ),
    Step::Rows(3),
    Step::Done("analyse a1 b1 --limit 5", &["stored analysis a1\n", REPORT]),
    Step::Has(4, "a1", &[REPORT]),
    Step::Done("analyse a1 b1", &["unchanged analysis a1\n", REPORT]),
    Step::Done("report a1", &[REPORT]),
    Step::Done(
        "list",
        &["records 4\ndataset d1 34\nmodel m1 94\nbasis b1 665\nanalysis a1 124\n"],
    ),
    Step::File("f", &["1 4\n1 -1 -1 1\n"]),
    Step::Done("import b2 b1 f", &["stored basis b2\nrules 9\nmoves 1\n"]),
    Step::Ends(
        Status::Registry,
        "analyse a1 b2",
        "refused Conflict kind analysis name a1\n",
    ),
    Step::Has(4, "a1", &[REPORT]),
    Step::Ends(
        Status::Registry,
        "remove basis b1",
        "refused InUse kind basis name b1 by a1\n",
    ),
    Step::Done("remove basis b2", &["removed basis b2\n"]),
    Step::Done("remove analysis a1", &["removed analysis a1\n"]),
    Step::Ends(
        Status::Registry,
        "report a1",
        "refused Unknown kind analysis name a1\n",
    ),
    Step::Done("remove basis b1", &["removed basis b1\n"]),
    Step::Done("remove model m1", &["removed model m1\n"]),
    Step::Done("remove dataset d1", &["removed dataset d1\n"]),
    Step::Rows(0),
    Step::File("g", &[INDEPENDENCE]),
];

/// A table of zeros, alone in its fiber.
const ZEROS: [Step; 6] = [
    Step::File("f", &["a,b,count\n1,1,0\n1,2,0\n2,1,0\n2,2,0\n"]),
    Step::File("g", &[INDEPENDENCE]),
    Step::Done("dataset d1 f", &["stored dataset d1\ncells 4 total 0\n"]),
    Step::Done("model m1 d1 g", &["stored model m1\nmargins 4 cells 4\n"]),
    Step::Done(
        "basis b1 m1",
        &["stored basis b1\nlooks 17\nrules 9\nmoves 1\n"],
    ),
    Step::Done("analyse a1 b1", &["stored analysis a1\n", ZEROS_REPORT]),
];

/// Its report.
const ZEROS_REPORT: &str = "analysis a1
basis b1
model m1
dataset d1
observed 0 0 0 0
tables 1
rings 1
weight 1
fraction 1/1
decimals 1.000000
";

/// Unordered pairs of two classes, where the unequal pair has the base 2.
const PAIRS: [Step; 8] = [
    Step::File("f", &["pair,count\n11,1\n12,0\n22,1\n"]),
    Step::File("g", &["kind = \"hardy-weinberg\"\nclasses = 2\n"]),
    Step::Done("dataset d1 f", &["stored dataset d1\ncells 3 total 2\n"]),
    Step::Done("model m1 d1 g", &["stored model m1\nmargins 2 cells 3\n"]),
    Step::Has(2, "m1", &[PAIRS_MODEL]),
    Step::Done(
        "basis b1 m1",
        &["stored basis b1\nlooks 8\nrules 6\nmoves 1\n"],
    ),
    Step::Has(3, "b1", &[OF_M1, PAIRS_CERTIFICATE]),
    Step::Done("analyse a1 b1", &["stored analysis a1\n", PAIRS_REPORT]),
];

/// The record of the model of pairs.
const PAIRS_MODEL: &str = "model 1
dataset d1
matrix 2 3
2 1 0
0 1 2
scale all
base 1 2 1
end
";

/// Its certificate.
const PAIRS_CERTIFICATE: &str = "certificate 1
matrix 2 3
2 1 0
0 1 2
order grevlex
moves 1
-1 2 -1
rules 6
0 0 0 2 0 > 0 0 1 0 1
1 0 0 0 1 > 0 1 0 1 0
1 0 0 1 0 > 0 1 1 0 0
0 2 0 0 0 > 0 0 0 0 1
1 1 0 0 0 > 0 0 0 1 0
2 0 0 0 0 > 0 0 1 0 0
starts 3
1 0 5
1 0 4
1 0 3
joins 8
0 2 1 0 1
1 2 1 0 0
1 4 1 0 3
2 4 1 1 3 0
3 4 1 0 1
1 5 2 0 2 3
2 5 1 0 4
4 5 1 0 2
paths 1
0 1 -1
end
";

/// The report on one of each equal pair.
const PAIRS_REPORT: &str = "analysis a1
basis b1
model m1
dataset d1
observed 1 0 1
tables 2
rings 1 1
weight 2
fraction 2/6
decimals 0.333333
";

/// A table of three by three without its diagonal, with ones and with twos on a cycle.
const NO_DIAGONAL: [Step; 14] = [
    Step::File(
        "f",
        &["a,b,count\n1,1,*\n1,2,1\n1,3,1\n2,1,1\n2,2,*\n2,3,1\n3,1,1\n3,2,1\n3,3,*\n"],
    ),
    Step::File("g", &["kind = \"quasi-independence\"\n"]),
    Step::Done("dataset d1 f", &["stored dataset d1\ncells 6 total 6\n"]),
    Step::Done("model m1 d1 g", &["stored model m1\nmargins 6 cells 6\n"]),
    Step::Done(
        "basis b1 m1",
        &["stored basis b1\nlooks 48\nrules 17\nmoves 1\n"],
    ),
    Step::Done("export moves b1 h", &["wrote moves b1 bytes 19\n"]),
    Step::Holds("h", &["1 6\n1 -1 -1 1 1 -1\n"]),
    Step::Done("analyse a1 b1", &["stored analysis a1\n", ONES_REPORT]),
    Step::File(
        "f",
        &["a,b,count\n1,1,*\n1,2,2\n1,3,0\n2,1,0\n2,2,*\n2,3,2\n3,1,2\n3,2,0\n3,3,*\n"],
    ),
    Step::Done("dataset d2 f", &["stored dataset d2\ncells 6 total 6\n"]),
    Step::Done("model m2 d2 g", &["stored model m2\nmargins 6 cells 6\n"]),
    Step::Done(
        "basis b2 m2",
        &["stored basis b2\nlooks 48\nrules 17\nmoves 1\n"],
    ),
    Step::Done("analyse a2 b2", &["stored analysis a2\n", CYCLE_REPORT]),
    Step::Has(4, "a2", &[CYCLE_REPORT]),
];

/// The report on ones.
const ONES_REPORT: &str = "analysis a1
basis b1
model m1
dataset d1
observed 1 1 1 1 1 1
tables 3
rings 1 2
weight 8
fraction 10/10
decimals 1.000000
";

/// The report on twos.
const CYCLE_REPORT: &str = "analysis a2
basis b2
model m2
dataset d2
observed 2 0 0 2 2 0
tables 3
rings 1 1 1
weight 1
fraction 2/10
decimals 0.200000
";

/// Counts of 65, whose weights add up to a number below 2^128, and of 66, whose weights don't.
const WIDE: [Step; 11] = [
    Step::File("f", &["a,b,count\n1,1,65\n1,2,0\n2,1,0\n2,2,65\n"]),
    Step::File("g", &[INDEPENDENCE]),
    Step::Done("dataset d1 f", &["stored dataset d1\ncells 4 total 130\n"]),
    Step::Done("model m1 d1 g", &["stored model m1\nmargins 4 cells 4\n"]),
    Step::Done(
        "basis b1 m1",
        &["stored basis b1\nlooks 17\nrules 9\nmoves 1\n"],
    ),
    Step::Done(
        "analyse a1 b1 --limit 100",
        &[
            "stored analysis a1\n",
            REPORT_HEAD,
            "observed 65 0 0 65\ntables 66\nrings 1 1 1",
            ONES,
            ONES,
            ONES,
            ONES,
            ONES,
            ONES,
            ONES,
            WIDE_REPORT,
        ],
    ),
    Step::File("f", &["a,b,count\n1,1,66\n1,2,0\n2,1,0\n2,2,66\n"]),
    Step::Done("dataset d2 f", &["stored dataset d2\ncells 4 total 132\n"]),
    Step::Done("model m2 d2 g", &["stored model m2\nmargins 4 cells 4\n"]),
    Step::Done(
        "basis b2 m2",
        &["stored basis b2\nlooks 17\nrules 9\nmoves 1\n"],
    ),
    Step::Ends(Status::Limit, "analyse a2 b2", "refused TooWide\n"),
];

/// The report on counts of 65 from the weight on.
const WIDE_REPORT: &str = "
weight 1
fraction 2/95067625827960698145584333020095113100
decimals 0.000000
";

/// A table of two by two by two without interaction of all three factors, as a hierarchical model
/// and as that of persons and items.
const NO_THREE_WAY: [Step; 14] = [
    Step::File(
        "f",
        &[
            "a,b,c,count\n1,1,1,1\n1,1,2,1\n1,2,1,1\n1,2,2,1\n2,1,1,1\n2,1,2,1\n",
            "2,2,1,1\n2,2,2,1\n",
        ],
    ),
    Step::File(
        "g",
        &[
            "kind = \"hierarchical\"\n",
            "generators = [[\"a\", \"b\"], [\"a\", \"c\"], [\"b\", \"c\"]]\n",
        ],
    ),
    Step::File(
        "h",
        &["kind = \"rasch\"\nperson = \"a\"\nitem = \"b\"\nresponse = \"c\"\n"],
    ),
    Step::Done("dataset d1 f", &["stored dataset d1\ncells 8 total 8\n"]),
    Step::Done("model m1 d1 g", &["stored model m1\nmargins 12 cells 8\n"]),
    Step::Has(2, "m1", &["model 1\ndataset d1\n", NO_THREE_WAY_MODEL]),
    Step::Done(
        "basis b1 m1",
        &["stored basis b1\nlooks 2941\nrules 54\nmoves 1\n"],
    ),
    Step::Done(
        "analyse a1 b1",
        &["stored analysis a1\n", NO_THREE_WAY_REPORT],
    ),
    Step::Done("model m2 d1 h", &["stored model m2\nmargins 12 cells 8\n"]),
    Step::Has(2, "m2", &["model 1\ndataset d1\n", NO_THREE_WAY_MODEL]),
    Step::Done(
        "model m1 d1 h",
        &["unchanged model m1\nmargins 12 cells 8\n"],
    ),
    Step::Done("export moves b1 f", &["wrote moves b1 bytes 24\n"]),
    Step::Holds("f", &["1 8\n1 -1 -1 1 -1 1 1 -1\n"]),
    Step::Rows(5),
];

/// The record of both models, without its first two lines.
const NO_THREE_WAY_MODEL: &str = "matrix 12 8
1 1 0 0 0 0 0 0
0 0 1 1 0 0 0 0
0 0 0 0 1 1 0 0
0 0 0 0 0 0 1 1
1 0 1 0 0 0 0 0
0 1 0 1 0 0 0 0
0 0 0 0 1 0 1 0
0 0 0 0 0 1 0 1
1 0 0 0 1 0 0 0
0 1 0 0 0 1 0 0
0 0 1 0 0 0 1 0
0 0 0 1 0 0 0 1
scale rows 1 2 3 4
base 1 1 1 1 1 1 1 1
end
";

/// The report on ones.
const NO_THREE_WAY_REPORT: &str = "analysis a1
basis b1
model m1
dataset d1
observed 1 1 1 1 1 1 1 1
tables 3
rings 1 2
weight 16
fraction 18/18
decimals 1.000000
";

/// One margin over 64 cells: a fiber of 45,760 tables, whose keys would be too large.
const MANY_CELLS: [Step; 7] = [
    Step::File(
        "f",
        &[
            "a,count\n1,3\n",
            "2,0\n3,0\n4,0\n5,0\n6,0\n7,0\n8,0\n9,0\n10,0\n11,0\n12,0\n13,0\n14,0\n",
            "15,0\n16,0\n17,0\n18,0\n19,0\n20,0\n21,0\n22,0\n23,0\n24,0\n25,0\n",
            "26,0\n27,0\n28,0\n29,0\n30,0\n31,0\n32,0\n33,0\n34,0\n35,0\n36,0\n",
            "37,0\n38,0\n39,0\n40,0\n41,0\n42,0\n43,0\n44,0\n45,0\n46,0\n47,0\n",
            "48,0\n49,0\n50,0\n51,0\n52,0\n53,0\n54,0\n55,0\n56,0\n57,0\n58,0\n",
            "59,0\n60,0\n61,0\n62,0\n63,0\n64,0\n",
        ],
    ),
    Step::File("g", &["kind = \"matrix\"\n"]),
    Step::File(
        "h",
        &["1 64\n1", ONES, ONES, ONES, ONES, ONES, ONES, ONES, "\n"],
    ),
    Step::Done("dataset d1 f", &["stored dataset d1\ncells 64 total 3\n"]),
    Step::Done(
        "model m1 d1 g --matrix h",
        &["stored model m1\nmargins 1 cells 64\n"],
    ),
    Step::Done(
        "basis b1 m1",
        &["stored basis b1\nlooks 2016\nrules 64\nmoves 63\n"],
    ),
    Step::Done(
        "analyse a1 b1",
        &[
            "stored analysis a1\n",
            REPORT_HEAD,
            "observed 3",
            ZERO_COUNTS,
            ZERO_COUNTS,
            ZERO_COUNTS,
            ZERO_COUNTS,
            ZERO_COUNTS,
            ZERO_COUNTS,
            ZERO_COUNTS,
            MANY_CELLS_REPORT,
        ],
    ),
];

/// Its report from the tables on.
const MANY_CELLS_REPORT: &str = "
tables 45760
rings 1 1 63 63 2015 1953 41664
weight 1
fraction 64/262144
decimals 0.000244
";

/// The first lines of a report.
const REPORT_HEAD: &str = "analysis a1
basis b1
model m1
dataset d1
";

/// Nine ones.
const ONES: &str = " 1 1 1 1 1 1 1 1 1";

/// Nine zeros.
const ZERO_COUNTS: &str = " 0 0 0 0 0 0 0 0 0";

// By hand.
#[test]
fn independence_of_two_by_two(rt: HostRuntime) -> Result<(), Fail> {
    assert_eq!(rt; first_wrong(&rt, rt.alloc(), &INDEPENDENT)?, None);
    Ok(())
}

// By hand.
#[test]
fn a_table_of_zeros(rt: HostRuntime) -> Result<(), Fail> {
    assert_eq!(rt; first_wrong(&rt, rt.alloc(), &ZEROS)?, None);
    Ok(())
}

// The certificate is that of a plain program, the report by hand.
#[test]
fn unordered_pairs(rt: HostRuntime) -> Result<(), Fail> {
    assert_eq!(rt; first_wrong(&rt, rt.alloc(), &PAIRS)?, None);
    Ok(())
}

// The looks and rules are those of a plain program, the reports by hand.
#[test]
fn tables_without_a_diagonal(rt: HostRuntime) -> Result<(), Fail> {
    assert_eq!(rt; first_wrong(&rt, rt.alloc(), &NO_DIAGONAL)?, None);
    Ok(())
}

// The binomial coefficients of 130 over 65 and of 132 over 66 lie on both sides of 2^128.
#[test]
fn sums_of_weights(rt: HostRuntime) -> Result<(), Fail> {
    assert_eq!(rt; first_wrong(&rt, rt.alloc(), &WIDE)?, None);
    Ok(())
}

// The looks and rules are those of a plain program, the report by hand.
#[test]
fn no_three_way_interaction(rt: HostRuntime) -> Result<(), Fail> {
    assert_eq!(rt; first_wrong(&rt, rt.alloc(), &NO_THREE_WAY)?, None);
    Ok(())
}

// The looks are those of a plain program; the tables of total 3 over 64 cells are counted by hand.
#[test]
fn one_margin_of_many_cells(rt: HostRuntime) -> Result<(), Fail> {
    assert_eq!(rt; first_wrong(&rt, rt.alloc(), &MANY_CELLS)?, None);
    Ok(())
}
