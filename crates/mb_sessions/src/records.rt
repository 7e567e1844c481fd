//! Texts that sessions share: a table of two by two, its model, its certificates and its report.
//! The certificates are those of a plain program.

use crate::sessions::Pieces;

/// The counts 3, 1, 1 and 3, in the canonical text of a dataset.
pub const TWO_BY_TWO: &str = "a,b,count\n1,1,3\n1,2,1\n2,1,1\n2,2,3\n";

/// Independence of two factors, as a model file says it.
pub const INDEPENDENCE: &str = "kind = \"hierarchical\"\ngenerators = [[\"a\"], [\"b\"]]\n";

/// The record of that model.
pub const MODEL: &str = "model 1
dataset d1
matrix 4 4
1 1 0 0
0 0 1 1
1 0 1 0
0 1 0 1
scale rows 1 2
base 1 1 1 1
end
";

/// The first lines of the record of a basis, before its certificate.
pub const OF_M1: &str = "basis 1
model m1
";

/// The certificate of that model, up to its moves.
pub const HEAD: &str = "certificate 1
matrix 4 4
1 1 0 0
0 0 1 1
1 0 1 0
0 1 0 1
order grevlex
moves 1
-1 1 1 -1
";

/// Its rules, as they are exported.
pub const RULES: &str = "rules 9
0 0 0 0 0 1 1 0 > 0 0 0 0 1 0 0 1
0 0 1 0 0 0 0 1 > 0 0 0 1 0 0 1 0
0 0 1 0 0 1 0 0 > 0 0 0 1 1 0 0 0
1 0 0 0 0 0 0 1 > 0 1 0 0 0 1 0 0
1 0 0 0 0 0 1 0 > 0 1 0 0 1 0 0 0
0 1 0 1 0 0 0 0 > 0 0 0 0 0 0 0 1
1 0 0 1 0 0 0 0 > 0 0 0 0 0 1 0 0
0 1 1 0 0 0 0 0 > 0 0 0 0 0 0 1 0
1 0 1 0 0 0 0 0 > 0 0 0 0 1 0 0 0
";

/// Its starts, and the number of its joins.
pub const STARTS: &str = "starts 4
1 0 8
1 0 6
1 0 7
1 0 5
joins 17
";

/// Its first join, line 26.
pub const FIRST_JOIN: &str = "0 2 1 0 1
";

/// Its other joins.
pub const JOINS: &str = "1 2 1 0 0
1 3 2 2 4 5 2 5
0 4 1 0 3
3 4 1 0 0
3 6 1 0 5
4 6 1 1 5 0
5 6 1 0 3
1 7 1 0 5
2 7 1 1 5 0
5 7 1 0 1
1 8 2 0 4 5
2 8 1 0 6
3 8 2 0 2 5
4 8 1 0 7
6 8 1 0 2
7 8 1 0 4
";

/// Its paths and its last line.
pub const PATHS: &str = "paths 1
0 1 -1
end
";

/// The certificate.
pub const CERTIFICATE: Pieces = &[HEAD, RULES, STARTS, FIRST_JOIN, JOINS, PATHS];

/// The record of the basis.
pub const BASIS: Pieces = &[OF_M1, HEAD, RULES, STARTS, FIRST_JOIN, JOINS, PATHS];

/// The report on the counts 3, 1, 1 and 3.
pub const REPORT: &str = "analysis a1
basis b1
model m1
dataset d1
observed 3 1 1 3
tables 5
rings 1 2 1 1
weight 16
fraction 34/70
decimals 0.485714
";
