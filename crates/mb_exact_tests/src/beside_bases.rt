//! Markov bases that are known, and what is answered to them beside a certificate, from the plain
//! model in tests/outside/given_moves_model, which prints this file. Don't edit it.

use crate::given_moves::Basis;

pub(crate) const BASES: [Basis; 7] = [
    // Independence of two factors of two and of three levels.
    Basis {
        matrix: "5 6
1 1 1 0 0 0
0 0 0 1 1 1
1 0 0 1 0 0
0 1 0 0 1 0
0 0 1 0 0 1",
        moves: "1 -1 0 -1 1 0
1 0 -1 -1 0 1
0 1 -1 0 -1 1",
        limit: 2,
        paths: "paths 3
0 1 3
1 1 2
2 1 1
end
",
        refusal: "rule 0 seen 2",
        without: "rule 2 0 1 0 1 0 0 > 1 0 0 0 1 0
rule 1 0 0 1 1 0 0 > 1 0 0 0 0 1
rule 0 0 0 1 0 1 0 > 0 1 0 0 0 1",
    },
    // Independence of two factors of three levels.
    Basis {
        matrix: "6 9
1 1 1 0 0 0 0 0 0
0 0 0 1 1 1 0 0 0
0 0 0 0 0 0 1 1 1
1 0 0 1 0 0 1 0 0
0 1 0 0 1 0 0 1 0
0 0 1 0 0 1 0 0 1",
        moves: "1 -1 0 -1 1 0 0 0 0
1 0 -1 -1 0 1 0 0 0
0 1 -1 0 -1 1 0 0 0
1 -1 0 0 0 0 -1 1 0
1 0 -1 0 0 0 -1 0 1
0 1 -1 0 0 0 0 -1 1
0 0 0 1 -1 0 -1 1 0
0 0 0 1 0 -1 -1 0 1
0 0 0 0 1 -1 0 -1 1",
        limit: 2,
        paths: "paths 9
0 1 9
1 1 6
2 1 8
3 1 7
4 1 5
5 1 4
6 1 3
7 1 2
8 1 1
end
",
        refusal: "rule 0 seen 2",
        without: "rule 8 0 1 0 1 0 0 0 0 0 > 1 0 0 0 1 0 0 0 0
rule 7 0 0 1 1 0 0 0 0 0 > 1 0 0 0 0 1 0 0 0
rule 6 0 0 1 0 1 0 0 0 0 > 0 1 0 0 0 1 0 0 0
rule 5 0 1 0 0 0 0 1 0 0 > 1 0 0 0 0 0 0 1 0
rule 4 0 0 1 0 0 0 1 0 0 > 1 0 0 0 0 0 0 0 1
rule 1 0 0 1 0 0 0 0 1 0 > 0 1 0 0 0 0 0 0 1
rule 3 0 0 0 0 1 0 1 0 0 > 0 0 0 1 0 0 0 1 0
rule 2 0 0 0 0 0 1 1 0 0 > 0 0 0 1 0 0 0 0 1
rule 0 0 0 0 0 0 1 0 1 0 > 0 0 0 0 1 0 0 0 1",
    },
    // No three-way interaction of three factors of two levels.
    Basis {
        matrix: "12 8
1 1 0 0 0 0 0 0
0 0 1 1 0 0 0 0
0 0 0 0 1 1 0 0
0 0 0 0 0 0 1 1
1 0 1 0 0 0 0 0
0 1 0 1 0 0 0 0
0 0 0 0 1 0 1 0
0 0 0 0 0 1 0 1
1 0 0 0 1 0 0 0
0 1 0 0 0 1 0 0
0 0 1 0 0 0 1 0
0 0 0 1 0 0 0 1",
        moves: "1 -1 -1 1 -1 1 1 -1",
        limit: 2,
        paths: "paths 1
0 1 -1
end
",
        refusal: "rule 0 seen 2",
        without: "rule 0 1 0 0 1 0 1 1 0 > 0 1 1 0 1 0 0 1",
    },
    // Hardy and Weinberg's law for two alleles.
    Basis {
        matrix: "2 3 2 1 0 0 1 2",
        moves: "1 -2 1",
        limit: 2,
        paths: "paths 1
0 1 1
end
",
        refusal: "rule 0 seen 2",
        without: "rule 0 0 2 0 > 1 0 1",
    },
    // Hardy and Weinberg's law for three alleles.
    Basis {
        matrix: "3 6 2 1 1 0 0 0 0 1 0 2 1 0 0 0 1 0 1 2",
        moves: "1 -2 0 1 0 0
1 -1 -1 0 1 0
1 0 -2 0 0 1
0 1 -1 -1 1 0
0 1 -1 0 -1 1
0 0 0 1 -2 1",
        limit: 2,
        paths: "paths 6
0 1 6
1 1 5
2 1 4
3 1 3
4 1 2
5 1 1
end
",
        refusal: "rule 0 seen 2",
        without: "rule 5 0 2 0 0 0 0 > 1 0 0 1 0 0
rule 4 0 1 1 0 0 0 > 1 0 0 0 1 0
rule 3 0 0 2 0 0 0 > 1 0 0 0 0 1
rule 2 0 0 1 1 0 0 > 0 1 0 0 1 0
rule 1 0 0 1 0 1 0 > 0 1 0 0 0 1
rule 0 0 0 0 0 2 0 > 0 0 0 1 0 1",
    },
    // Quasi-independence of two factors of three levels, off the diagonal.
    Basis {
        matrix: "6 6
1 1 0 0 0 0
0 0 1 1 0 0
0 0 0 0 1 1
0 0 1 0 1 0
1 0 0 0 0 1
0 1 0 1 0 0",
        moves: "1 -1 -1 1 1 -1",
        limit: 2,
        paths: "paths 1
0 1 -1
end
",
        refusal: "rule 0 seen 2",
        without: "rule 0 1 0 0 1 1 0 > 0 1 1 0 0 1",
    },
    // Quasi-independence of two factors of four levels, off the diagonal.
    Basis {
        matrix: "8 12
1 1 1 0 0 0 0 0 0 0 0 0
0 0 0 1 1 1 0 0 0 0 0 0
0 0 0 0 0 0 1 1 1 0 0 0
0 0 0 0 0 0 0 0 0 1 1 1
0 0 0 1 0 0 1 0 0 1 0 0
1 0 0 0 0 0 0 1 0 0 1 0
0 1 0 0 1 0 0 0 0 0 0 1
0 0 1 0 0 1 0 0 1 0 0 0",
        moves: "0 1 -1 0 -1 1 0 0 0 0 0 0
1 0 -1 0 0 0 0 -1 1 0 0 0
1 -1 0 0 0 0 0 0 0 0 -1 1
0 0 0 1 0 -1 -1 0 1 0 0 0
0 0 0 1 -1 0 0 0 0 -1 0 1
0 0 0 0 0 0 1 -1 0 -1 1 0
1 -1 0 -1 1 0 1 -1 0 0 0 0
1 0 -1 -1 0 1 0 0 0 1 -1 0
0 1 -1 0 0 0 -1 0 1 1 0 -1
0 0 0 0 1 -1 0 -1 1 0 1 -1",
        limit: 3,
        paths: "paths 14
0 1 3
1 1 6
2 1 5
3 1 2
4 1 4
5 1 1
6 1 -10
7 2 -6 5
8 1 -9
9 2 -2 6
10 2 -1 5
11 1 -8
12 2 -1 2
13 1 -7
end
",
        refusal: "rule 7 seen 3",
        without: "rule 5 0 0 1 0 1 0 0 0 0 0 0 0 > 0 1 0 0 0 1 0 0 0 0 0 0
rule 3 0 0 1 0 0 0 0 1 0 0 0 0 > 1 0 0 0 0 0 0 0 1 0 0 0
rule 0 0 1 0 0 0 0 0 0 0 0 1 0 > 1 0 0 0 0 0 0 0 0 0 0 1
rule 4 0 0 0 0 0 1 1 0 0 0 0 0 > 0 0 0 1 0 0 0 0 1 0 0 0
rule 2 0 0 0 0 1 0 0 0 0 1 0 0 > 0 0 0 1 0 0 0 0 0 0 0 1
rule 1 0 0 0 0 0 0 0 1 0 1 0 0 > 0 0 0 0 0 0 1 0 0 0 1 0
rule 13 1 0 0 0 1 0 1 0 0 0 0 0 > 0 1 0 1 0 0 0 1 0 0 0 0
rule 11 1 0 0 0 0 1 0 0 0 1 0 0 > 0 0 1 1 0 0 0 0 0 0 1 0
rule 8 0 1 0 0 0 0 0 0 1 1 0 0 > 0 0 1 0 0 0 1 0 0 0 0 1
rule 6 0 0 0 0 1 0 0 0 1 0 1 0 > 0 0 0 0 0 1 0 1 0 0 0 1",
    },
];
