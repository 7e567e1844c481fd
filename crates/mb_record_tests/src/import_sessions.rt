//! Sessions of given moves: proved beside a certificate, refused, and used.

use mb_desk::Status;
use mb_sessions::records::{BASIS, FIRST_JOIN, JOINS, MODEL, OF_M1, RULES, STARTS, TWO_BY_TWO};
use mb_sessions::{Step, first_wrong};
use std::test::Fail;

/// Independence of two by three: two moves that span the kernel are no Markov basis, a third makes
/// them one.
const TWO_BY_THREE: [Step; 23] = [
    Step::File("d", &["a,b,count\n1,1,2\n1,2,1\n1,3,0\n2,2,1\n2,3,2\n"]),
    Step::File(
        "m",
        &["kind = \"hierarchical\"\ngenerators = [[\"a\"], [\"b\"]]\n"],
    ),
    Step::Done("dataset d1 d", &["stored dataset d1\ncells 6 total 6\n"]),
    Step::Done("model m1 d1 m", &["stored model m1\nmargins 5 cells 6\n"]),
    Step::Done(
        "basis b1 m1",
        &["stored basis b1\nlooks 56\nrules 18\nmoves 3\n"],
    ),
    Step::Has(
        3,
        "b1",
        &[OF_M1, WIDE_HEAD, WIDE_MOVES, WIDE_RULES, WIDE_PATHS],
    ),
    Step::File("f", &["2 6\n1 -1 0 -1 1 0\n0 1 -1 0 -1 1\n"]),
    Step::Ends(
        Status::Refused,
        "import b2 b1 f",
        "refused NotBasis rule 1 left 0 0 1 1 0 0 right 1 0 0 0 0 1\n",
    ),
    Step::Rows(3),
    Step::File("f", &["3 6\n", GIVEN]),
    Step::Ends(
        Status::Limit,
        "import b2 b1 f --limit 1",
        "refused TooLarge rule 0 seen 2\n",
    ),
    Step::Rows(3),
    Step::Done(
        "import b2 b1 f --limit 2",
        &["stored basis b2\nrules 18\nmoves 3\n"],
    ),
    Step::Has(
        3,
        "b2",
        &[
            OF_M1,
            WIDE_HEAD,
            "moves 3\n",
            GIVEN,
            WIDE_RULES,
            GIVEN_PATHS,
        ],
    ),
    Step::Done(
        "import b2 b1 f",
        &["unchanged basis b2\nrules 18\nmoves 3\n"],
    ),
    Step::Ends(
        Status::Registry,
        "import b1 b2 f",
        "refused Conflict kind basis name b1\n",
    ),
    Step::Done(
        "export certificate b2 g",
        &["wrote certificate b2 bytes 1781\n"],
    ),
    Step::Holds(
        "g",
        &[WIDE_HEAD, "moves 3\n", GIVEN, WIDE_RULES, GIVEN_PATHS],
    ),
    Step::Done("check g", &["joins rules 18 moves 3 pairs 56\n"]),
    Step::Done("export moves b2 g", &["wrote moves b2 bytes 46\n"]),
    Step::Holds("g", &["3 6\n", GIVEN]),
    Step::Done("analyse a1 b2", &["stored analysis a1\n", WIDE_REPORT]),
    Step::Has(4, "a1", &[WIDE_REPORT]),
];

/// Three moves, other than those of the certificate.
const GIVEN: &str = "1 -1 0 -1 1 0
0 1 -1 0 -1 1
1 0 -1 -1 0 1
";

/// The shortest paths by them.
const GIVEN_PATHS: &str = "paths 3
0 1 2
1 1 3
2 1 1
end
";

/// The report on the counts 2, 1, 0, 0, 1 and 2, by a plain program.
const WIDE_REPORT: &str = "analysis a1
basis b2
model m1
dataset d1
observed 2 1 0 0 1 2
tables 7
rings 1 3 3
weight 9
fraction 54/90
decimals 0.600000
";

/// The certificate of independence of two by three, up to its moves.
const WIDE_HEAD: &str = "certificate 1
matrix 5 6
1 1 1 0 0 0
0 0 0 1 1 1
1 0 0 1 0 0
0 1 0 0 1 0
0 0 1 0 0 1
order grevlex
";

/// Its rules, starts and joins.
const WIDE_RULES: &str = "rules 18
0 0 0 0 0 0 0 1 0 1 0 > 0 0 0 0 0 0 1 0 0 0 1
0 0 0 0 0 0 0 1 1 0 0 > 0 0 0 0 0 1 0 0 0 0 1
0 0 0 0 0 0 1 0 1 0 0 > 0 0 0 0 0 1 0 0 0 1 0
0 0 0 1 0 0 0 0 0 0 1 > 0 0 0 0 1 0 0 0 0 1 0
0 0 0 1 0 0 0 1 0 0 0 > 0 0 0 0 1 0 1 0 0 0 0
0 0 1 0 0 0 0 0 0 0 1 > 0 0 0 0 1 0 0 0 1 0 0
0 0 1 0 0 0 0 0 0 1 0 > 0 0 0 1 0 0 0 0 1 0 0
0 0 1 0 0 0 0 1 0 0 0 > 0 0 0 0 1 1 0 0 0 0 0
0 0 1 0 0 0 1 0 0 0 0 > 0 0 0 1 0 1 0 0 0 0 0
1 0 0 0 0 0 0 0 0 0 1 > 0 1 0 0 0 0 0 1 0 0 0
1 0 0 0 0 0 0 0 0 1 0 > 0 1 0 0 0 0 1 0 0 0 0
1 0 0 0 0 0 0 0 1 0 0 > 0 1 0 0 0 1 0 0 0 0 0
0 1 0 0 1 0 0 0 0 0 0 > 0 0 0 0 0 0 0 0 0 0 1
1 0 0 0 1 0 0 0 0 0 0 > 0 0 0 0 0 0 0 1 0 0 0
0 1 0 1 0 0 0 0 0 0 0 > 0 0 0 0 0 0 0 0 0 1 0
1 0 0 1 0 0 0 0 0 0 0 > 0 0 0 0 0 0 1 0 0 0 0
0 1 1 0 0 0 0 0 0 0 0 > 0 0 0 0 0 0 0 0 1 0 0
1 0 1 0 0 0 0 0 0 0 0 > 0 0 0 0 0 1 0 0 0 0 0
starts 6
1 0 17
1 0 15
1 0 13
1 0 16
1 0 14
1 0 12
joins 56
0 1 1 0 2
1 2 0 1 0
0 4 1 0 3
1 4 1 1 3 2
3 4 1 0 0
3 5 1 0 6
0 6 2 2 5 2 1 3
5 6 0 1 3
0 7 2 0 5 2
1 7 1 0 5
4 7 1 0 8
5 7 1 0 1
6 7 2 0 1 3
2 8 1 0 6
5 8 1 1 2 3
6 8 1 0 2
7 8 0 1 4
3 9 2 2 10 12 4 12
5 9 2 2 11 12 7 12
0 10 1 0 9
6 10 2 2 11 14 8 14
9 10 1 0 0
1 11 1 0 9
2 11 1 0 10
9 11 1 0 1
10 11 1 0 2
9 13 1 0 12
10 13 1 1 12 0
11 13 1 1 12 1
12 13 1 0 9
3 14 1 0 12
4 14 1 1 12 0
12 14 1 0 3
3 15 2 0 10 12
4 15 1 0 13
9 15 2 0 4 12
10 15 1 0 14
11 15 1 1 14 2
13 15 1 0 4
14 15 1 0 10
5 16 1 0 12
6 16 1 0 14
7 16 1 1 12 1
8 16 1 1 14 2
12 16 1 0 5
14 16 1 0 6
5 17 2 0 11 12
6 17 2 0 11 14
7 17 1 0 13
8 17 1 0 15
9 17 2 0 7 12
10 17 2 0 8 14
11 17 1 0 16
13 17 1 0 7
15 17 1 0 8
16 17 1 0 11
";

/// Its own moves.
const WIDE_MOVES: &str = "moves 3
0 -1 1 0 1 -1
-1 0 1 1 0 -1
-1 1 0 1 -1 0
";

/// Their paths.
const WIDE_PATHS: &str = "paths 3
0 1 -1
1 1 -2
2 1 -3
end
";

/// The file is read before the basis is looked up, and the basis before its moves are tested.
const REFUSED: [Step; 20] = [
    Step::Row(1, "d1", &[TWO_BY_TWO]),
    Step::Row(2, "m1", &[MODEL]),
    Step::Row(3, "b1", BASIS),
    Step::Ends(Status::Refused, "import b2 b9 f", "refused NoFile file 1\n"),
    Step::File("f", &["1 4\n1 -1 x 1\n"]),
    Step::Ends(
        Status::Refused,
        "import b2 b9 f",
        "refused BadNumber file 1 token 5\n",
    ),
    Step::File("f", &["1 3\n1 -1 0\n"]),
    Step::Ends(
        Status::Registry,
        "import b2 b9 f",
        "refused Unknown kind basis name b9\n",
    ),
    Step::Ends(
        Status::Refused,
        "import b2 b1 f",
        "refused WidthDiffers matrix 4 moves 3\n",
    ),
    Step::File("f", &["2 4\n1 -1 -1 1\n1 -1 1 -1\n"]),
    Step::Ends(
        Status::Refused,
        "import b2 b1 f",
        "refused NotAMove row 2\n",
    ),
    Step::File("f", &["0 4\n"]),
    Step::Ends(
        Status::Refused,
        "import b2 b1 f",
        "refused NotBasis rule 0 left 0 1 1 0 right 1 0 0 1\n",
    ),
    Step::Rows(3),
    Step::File("f", &["2 4\n0 0 0 0\n1 -1 -1 1\n"]),
    Step::Done("import b2 b1 f", &["stored basis b2\nrules 9\nmoves 2\n"]),
    Step::Has(
        3,
        "b2",
        &[
            OF_M1,
            GIVEN_HEAD,
            RULES,
            STARTS,
            FIRST_JOIN,
            JOINS,
            "paths 1\n0 1 2\nend\n",
        ],
    ),
    Step::Ends(
        Status::Registry,
        "remove model m1",
        "refused InUse kind model name m1 by b1\n",
    ),
    Step::Done("remove basis b1", &["removed basis b1\n"]),
    Step::Rows(3),
];

/// The certificate of independence of two by two with a move of zeros before its own, up to its
/// moves.
const GIVEN_HEAD: &str = "certificate 1
matrix 4 4
1 1 0 0
0 0 1 1
1 0 1 0
0 1 0 1
order grevlex
moves 2
0 0 0 0
1 -1 -1 1
";

// The certificate, the paths and the report are those of a plain program.
#[test]
fn moves_proved_beside_a_certificate(rt: HostRuntime) -> Result<(), Fail> {
    assert_eq!(rt; first_wrong(&rt, rt.alloc(), &TWO_BY_THREE)?, None);
    Ok(())
}

// By hand: the first refusal in the order of work.
#[test]
fn moves_refused(rt: HostRuntime) -> Result<(), Fail> {
    assert_eq!(rt; first_wrong(&rt, rt.alloc(), &REFUSED)?, None);
    Ok(())
}
