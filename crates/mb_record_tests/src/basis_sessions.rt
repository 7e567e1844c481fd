//! Sessions of bases: completed, exported, and read back.

use mb_desk::Status;
use mb_sessions::records::{BASIS, CERTIFICATE, INDEPENDENCE, MODEL, OF_M1, RULES, TWO_BY_TWO};
use mb_sessions::{Step, first_wrong};
use std::test::Fail;

/// Independence of two by two under both orders, with as many looks as it takes and with fewer.
const COMPLETED: [Step; 22] = [
    Step::Row(1, "d1", &[TWO_BY_TWO]),
    Step::Row(2, "m1", &[MODEL]),
    Step::Ends(
        Status::Limit,
        "basis b1 m1 --pairs 0",
        "refused Unfinished looked 0 left 0 1\n",
    ),
    Step::Ends(
        Status::Limit,
        "basis b1 m1 --pairs 16",
        "refused Unfinished looked 16 left 5 8\n",
    ),
    Step::Ends(
        Status::Limit,
        "basis b1 m1 --order lex --pairs 16",
        "refused Unfinished looked 16 left 7 8\n",
    ),
    Step::Ends(
        Status::Registry,
        "basis b1 m2",
        "refused Unknown kind model name m2\n",
    ),
    Step::Rows(2),
    Step::Done(
        "basis b1 m1 --pairs 17",
        &["stored basis b1\nlooks 17\nrules 9\nmoves 1\n"],
    ),
    Step::Has(3, "b1", BASIS),
    Step::Done(
        "basis b1 m1 --order grevlex",
        &["unchanged basis b1\nlooks 17\nrules 9\nmoves 1\n"],
    ),
    Step::Ends(
        Status::Registry,
        "basis b1 m1 --order lex",
        "refused Conflict kind basis name b1\n",
    ),
    Step::Done(
        "basis b2 m1 --pairs 1000000 --order lex",
        &["stored basis b2\nlooks 17\nrules 9\nmoves 1\n"],
    ),
    Step::Has(3, "b2", &[OF_M1, LEX_HEAD, LEX_RULES, LEX_TRACES]),
    Step::Done("list", &[LISTED]),
    Step::Rows(4),
    Step::Ends(
        Status::Registry,
        "remove model m1",
        "refused InUse kind model name m1 by b1\n",
    ),
    Step::Done("remove basis b1", &["removed basis b1\n"]),
    Step::Ends(
        Status::Registry,
        "remove model m1",
        "refused InUse kind model name m1 by b2\n",
    ),
    Step::Done("remove basis b2", &["removed basis b2\n"]),
    Step::Done("remove model m1", &["removed model m1\n"]),
    Step::Has(1, "d1", &[TWO_BY_TWO]),
    Step::Rows(1),
];

/// The records and the lengths of their bodies.
const LISTED: &str = "records 4
dataset d1 34
model m1 94
basis b1 665
basis b2 673
";

/// The certificate under the order lex, up to its moves.
const LEX_HEAD: &str = "certificate 1
matrix 4 4
1 1 0 0
0 0 1 1
1 0 1 0
0 1 0 1
order lex
moves 1
1 -1 -1 1
";

/// Its rules.
const LEX_RULES: &str = "rules 9
0 0 0 0 1 0 0 1 > 0 0 0 0 0 1 1 0
0 0 1 0 0 0 0 1 > 0 0 0 1 0 0 1 0
0 0 1 0 0 1 0 0 > 0 0 0 1 1 0 0 0
1 0 0 0 0 0 0 1 > 0 1 0 0 0 1 0 0
1 0 0 0 0 0 1 0 > 0 1 0 0 1 0 0 0
0 1 0 1 0 0 0 0 > 0 0 0 0 0 0 0 1
1 0 0 1 0 0 0 0 > 0 0 0 0 0 1 0 0
0 1 1 0 0 0 0 0 > 0 0 0 0 0 0 1 0
1 0 1 0 0 0 0 0 > 0 0 0 0 1 0 0 0
";

/// Its starts, joins and paths.
const LEX_TRACES: &str = "starts 4
1 0 8
1 0 6
1 0 7
1 0 5
joins 17
0 1 1 0 2
1 2 0 1 0
0 3 1 0 4
1 3 3 3 4 5 0 2 5 0
3 4 0 1 0
3 6 1 0 5
4 6 2 0 5 0
5 6 1 0 3
1 7 1 0 5
2 7 2 0 5 0
5 7 1 0 1
1 8 3 1 4 5 0 0
2 8 1 0 6
3 8 3 1 2 5 0 0
4 8 1 0 7
6 8 1 0 2
7 8 1 0 4
paths 1
0 1 -1
end
";

/// Each part of a record is written to a file; a certificate is read back.
const EXPORTED: [Step; 24] = [
    Step::File("f", &[TWO_BY_TWO]),
    Step::File("g", &[INDEPENDENCE]),
    Step::Done("dataset d1 f", &["stored dataset d1\ncells 4 total 8\n"]),
    Step::Done("model m1 d1 g", &["stored model m1\nmargins 4 cells 4\n"]),
    Step::Done(
        "basis b1 m1",
        &["stored basis b1\nlooks 17\nrules 9\nmoves 1\n"],
    ),
    Step::Done("export moves b1 f", &["wrote moves b1 bytes 14\n"]),
    Step::Holds("f", &["1 4\n-1 1 1 -1\n"]),
    Step::Done("export matrix m1 f", &["wrote matrix m1 bytes 36\n"]),
    Step::Holds("f", &["4 4\n1 1 0 0\n0 0 1 1\n1 0 1 0\n0 1 0 1\n"]),
    Step::Done("export rules b1 f", &["wrote rules b1 bytes 314\n"]),
    Step::Holds("f", &[RULES]),
    Step::Done(
        "export certificate b1 f",
        &["wrote certificate b1 bytes 648\n"],
    ),
    Step::Holds("f", CERTIFICATE),
    Step::Done("check f", &["joins rules 9 moves 1 pairs 17\n"]),
    Step::Done("export dataset d1 f", &["wrote dataset d1 bytes 34\n"]),
    Step::Holds("f", &[TWO_BY_TWO]),
    Step::Ends(
        Status::Registry,
        "export dataset b1 f",
        "refused Unknown kind dataset name b1\n",
    ),
    Step::Ends(
        Status::Registry,
        "export matrix b1 f",
        "refused Unknown kind model name b1\n",
    ),
    Step::Ends(
        Status::Registry,
        "export moves m1 f",
        "refused Unknown kind basis name m1\n",
    ),
    Step::Ends(
        Status::Registry,
        "export certificate m1 f",
        "refused Unknown kind basis name m1\n",
    ),
    Step::Ends(
        Status::Registry,
        "export rules m1 f",
        "refused Unknown kind basis name m1\n",
    ),
    Step::Holds("f", &[TWO_BY_TWO]),
    Step::Rows(3),
    Step::Done(
        "list",
        &["records 3\ndataset d1 34\nmodel m1 94\nbasis b1 665\n"],
    ),
];

/// A matrix of one entry, whose basis is found without a look, and its exact test.
const ONE_CELL: [Step; 9] = [
    Step::File("f", &["a,count\n1,2\n"]),
    Step::File("g", &["kind = \"matrix\"\n"]),
    Step::File("h", &["1 1\n1\n"]),
    Step::Done("dataset d1 f", &["stored dataset d1\ncells 1 total 2\n"]),
    Step::Done(
        "model m1 d1 g --matrix h",
        &["stored model m1\nmargins 1 cells 1\n"],
    ),
    Step::Done(
        "basis b1 m1 --pairs 0",
        &["stored basis b1\nlooks 0\nrules 1\nmoves 0\n"],
    ),
    Step::Has(3, "b1", &[OF_M1, ONE_CELL_CERTIFICATE]),
    Step::Done("analyse a1 b1", &["stored analysis a1\n", ONE_CELL_REPORT]),
    Step::Done("report a1", &[ONE_CELL_REPORT]),
];

/// The certificate of the matrix of one entry, by hand.
const ONE_CELL_CERTIFICATE: &str = "certificate 1
matrix 1 1
1
order grevlex
moves 0
rules 1
1 0 > 0 1
starts 1
1 0 0
joins 0
paths 0
end
";

/// The report on its one table, by hand.
const ONE_CELL_REPORT: &str = "analysis a1
basis b1
model m1
dataset d1
observed 2
tables 1
rings 1
weight 1
fraction 1/1
decimals 1.000000
";

/// A matrix of large entries, where the peak of rules 2 and 66 weighs 65,934.
const HEAVY: [Step; 9] = [
    Step::File("f", &["a,count\n1,1\n2,1\n"]),
    Step::File("g", &["kind = \"matrix\"\nscale = [2]\n"]),
    Step::File("h", &["2 2\n1000 999\n1 1\n"]),
    Step::File("i", &["kind = \"matrix\"\n"]),
    Step::Done("dataset d1 f", &["stored dataset d1\ncells 2 total 2\n"]),
    Step::Done(
        "model m1 d1 g --matrix h",
        &["stored model m1\nmargins 2 cells 2\n"],
    ),
    Step::Ends(Status::Limit, "basis b1 m1", "refused Exponent pair 2 66\n"),
    Step::Ends(
        Status::Refused,
        "model m2 d1 i --matrix h",
        "refused ScaleNotCover cell 1\n",
    ),
    Step::Rows(2),
];

// The certificates are those of a plain program, and the looks and pairs too.
#[test]
fn bases_completed(rt: HostRuntime) -> Result<(), Fail> {
    assert_eq!(rt; first_wrong(&rt, rt.alloc(), &COMPLETED)?, None);
    Ok(())
}

// By hand, but for the certificate.
#[test]
fn records_exported(rt: HostRuntime) -> Result<(), Fail> {
    assert_eq!(rt; first_wrong(&rt, rt.alloc(), &EXPORTED)?, None);
    Ok(())
}

// By hand.
#[test]
fn a_basis_of_one_cell(rt: HostRuntime) -> Result<(), Fail> {
    assert_eq!(rt; first_wrong(&rt, rt.alloc(), &ONE_CELL)?, None);
    Ok(())
}

// By hand.
#[test]
fn a_peak_too_heavy(rt: HostRuntime) -> Result<(), Fail> {
    assert_eq!(rt; first_wrong(&rt, rt.alloc(), &HEAVY)?, None);
    Ok(())
}
