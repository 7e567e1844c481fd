//! Random matrices and moves, and the least paths between two tables, from the plain model in
//! tests/outside/given_moves_model, which prints this file. Don't edit it.

use crate::paths::Case;

pub(crate) const CASES: [Case; 50] = [
    Case {
        matrix: "2 5 1 2 1 0 0 1 0 1 1 1",
        moves: "2 0 -2 0 0
2 -1 0 -2 0",
        from: "0 0 0 1 0",
        to: "0 0 0 0 1",
        seen: 1,
        answer: "apart",
    },
    Case {
        matrix: "1 2 2 1",
        moves: "1 -2
1 -2",
        from: "0 1",
        to: "0 1",
        seen: 1,
        answer: "steps",
    },
    Case {
        matrix: "2 3 2 1 2 2 1 1",
        moves: "-1 2 0
-1 2 0",
        from: "4 0 0",
        to: "1 6 0",
        seen: 4,
        answer: "steps 1 1 1",
    },
    Case {
        matrix: "3 5 0 0 0 1 0 0 2 0 1 2 1 2 1 1 0",
        moves: "-1 0 1 0 0
-1 0 1 0 0
-1 1 -1 0 -1",
        from: "1 1 2 2 2",
        to: "5 0 0 2 3",
        seen: 12,
        answer: "steps -1 -1 -3 -1",
    },
    Case {
        matrix: "3 2 1 1 1 1 1 1",
        moves: "1 -1
0 0
-2 2
0 0",
        from: "7 1",
        to: "1 7",
        seen: 8,
        answer: "steps 3 3 3",
    },
    Case {
        matrix: "2 3 1 1 2 1 2 1",
        moves: "0 0 0",
        from: "0 2 2",
        to: "3 1 1",
        seen: 1,
        answer: "apart",
    },
    Case {
        matrix: "3 2 1 1 2 1 2 2",
        moves: "",
        from: "2 2",
        to: "2 2",
        seen: 1,
        answer: "steps",
    },
    Case {
        matrix: "2 5 0 1 0 0 2 2 0 1 1 1",
        moves: "-1 0 1 1 0
1 0 -1 -1 0
-1 0 1 1 0
0 -2 0 -1 1
0 -2 -1 0 1",
        from: "0 2 0 3 0",
        to: "0 2 3 0 0",
        seen: 10,
        answer: "steps 4 -5 4 -5 4 -5",
    },
    Case {
        matrix: "2 5 2 0 1 0 2 1 2 2 2 1",
        moves: "2 1 0 -1 -2
0 1 0 -1 0
-2 -1 0 1 2
0 1 0 -1 0",
        from: "3 0 0 4 0",
        to: "3 4 0 0 0",
        seen: 8,
        answer: "steps 2 2 2 2",
    },
    Case {
        matrix: "1 2 1 1",
        moves: "1 -1
-1 1
2 -2",
        from: "4 1",
        to: "1 4",
        seen: 6,
        answer: "steps -1 -3",
    },
    Case {
        matrix: "1 3 2 1 2",
        moves: "-1 0 1
0 0 0
0 0 0",
        from: "1 0 4",
        to: "0 2 4",
        seen: 6,
        answer: "apart",
    },
    Case {
        matrix: "2 2 0 1 2 1",
        moves: "",
        from: "1 0",
        to: "1 0",
        seen: 1,
        answer: "steps",
    },
    Case {
        matrix: "2 4 1 1 2 0 1 0 2 1",
        moves: "2 0 -1 0
1 -1 0 -1
2 0 -1 0",
        from: "0 4 0 5",
        to: "2 0 1 1",
        seen: 8,
        answer: "steps 2 2 -1 2 2",
    },
    Case {
        matrix: "1 3 1 2 2",
        moves: "0 1 -1
-2 1 0
-2 2 -1",
        from: "13 0 0",
        to: "9 0 2",
        seen: 9,
        answer: "steps 2 -1 2 -1",
    },
    Case {
        matrix: "2 5 0 1 1 1 1 1 0 1 1 0",
        moves: "1 0 -1 0 1
0 0 2 -2 0
1 1 0 -1 0",
        from: "0 0 2 2 4",
        to: "0 1 3 1 3",
        seen: 11,
        answer: "steps 3 -1",
    },
    Case {
        matrix: "2 3 0 1 0 1 0 1",
        moves: "0 0 0
-2 0 2
0 0 0
0 0 0",
        from: "4 2 2",
        to: "5 2 1",
        seen: 4,
        answer: "apart",
    },
    Case {
        matrix: "3 5 0 1 1 1 1 1 2 0 0 0 0 1 0 0 0",
        moves: "0 0 2 -2 0",
        from: "0 4 1 0 0",
        to: "0 4 1 0 0",
        seen: 1,
        answer: "steps",
    },
    Case {
        matrix: "1 2 1 2",
        moves: "2 -1
0 0
-2 1
2 -1",
        from: "0 5",
        to: "4 3",
        seen: 3,
        answer: "steps 1 1",
    },
    Case {
        matrix: "2 3 1 2 1 1 0 0",
        moves: "0 -1 2
0 1 -2
0 1 -2
0 0 0
0 0 0",
        from: "0 5 3",
        to: "0 3 7",
        seen: 4,
        answer: "steps 1 1",
    },
    Case {
        matrix: "3 3 1 2 1 1 1 1 0 1 0",
        moves: "-1 0 1",
        from: "2 1 2",
        to: "0 1 4",
        seen: 5,
        answer: "steps 1 1",
    },
    Case {
        matrix: "3 5 0 1 0 1 1 0 0 0 2 1 1 0 2 0 0",
        moves: "0 -1 0 -1 2
0 -1 0 -1 2
0 1 0 1 -2
0 -1 0 -1 2
2 1 -1 1 -2",
        from: "4 0 0 0 0",
        to: "0 0 2 0 0",
        seen: 1,
        answer: "apart",
    },
    Case {
        matrix: "3 3 0 0 2 0 1 1 1 0 0",
        moves: "0 0 0
0 0 0
0 0 0",
        from: "2 1 1",
        to: "2 1 1",
        seen: 1,
        answer: "steps",
    },
    Case {
        matrix: "3 3 0 0 1 1 1 0 2 2 1",
        moves: "2 -2 0
-1 1 0
-1 1 0
-2 2 0",
        from: "0 5 1",
        to: "5 0 1",
        seen: 6,
        answer: "steps 1 1 -2",
    },
    Case {
        matrix: "2 4 1 1 2 1 1 2 1 0",
        moves: "1 0 -1 1
1 0 -1 1
-1 1 -1 2",
        from: "0 2 3 2",
        to: "1 3 0 6",
        seen: 9,
        answer: "steps 1 1 3",
    },
    Case {
        matrix: "1 4 1 2 2 1",
        moves: "-1 1 0 -1
-2 0 0 2",
        from: "2 0 0 6",
        to: "0 4 0 0",
        seen: 13,
        answer: "steps 1 1 -2 1 1",
    },
    Case {
        matrix: "2 4 2 2 1 2 1 1 0 2",
        moves: "-2 0 2 1
0 0 0 0
-2 2 0 0",
        from: "1 1 0 1",
        to: "2 0 0 1",
        seen: 1,
        answer: "apart",
    },
    Case {
        matrix: "2 4 0 1 1 1 1 0 2 0",
        moves: "0 -2 0 2
-2 -1 1 0",
        from: "0 2 1 0",
        to: "0 0 1 2",
        seen: 3,
        answer: "steps 1",
    },
    Case {
        matrix: "1 3 1 1 1",
        moves: "-2 1 1
-1 0 1",
        from: "3 1 3",
        to: "1 4 2",
        seen: 28,
        answer: "steps 1 -2 1 -2 -2 1 -2",
    },
    Case {
        matrix: "3 3 1 0 0 1 1 1 1 1 1",
        moves: "0 -1 1
0 -1 1",
        from: "0 4 3",
        to: "0 2 5",
        seen: 5,
        answer: "steps 1 1",
    },
    Case {
        matrix: "2 2 1 1 2 2",
        moves: "-2 2
-2 2
1 -1
-2 2",
        from: "4 1",
        to: "0 5",
        seen: 6,
        answer: "steps 1 1",
    },
    Case {
        matrix: "1 4 1 2 1 1",
        moves: "2 0 0 -2
-2 0 2 0",
        from: "3 2 2 1",
        to: "3 0 5 2",
        seen: 6,
        answer: "apart",
    },
    Case {
        matrix: "2 2 1 1 2 0",
        moves: "0 0
0 0
0 0",
        from: "2 3",
        to: "2 3",
        seen: 1,
        answer: "steps",
    },
    Case {
        matrix: "3 5 1 1 1 0 1 1 1 2 0 1 0 2 1 1 1",
        moves: "-1 0 0 -1 1
1 -1 0 2 0
-1 0 0 -1 1",
        from: "5 1 0 4 0",
        to: "3 3 0 0 0",
        seen: 8,
        answer: "steps -2 -2",
    },
    Case {
        matrix: "3 3 1 0 1 0 0 0 1 1 1",
        moves: "-1 0 1",
        from: "3 2 0",
        to: "0 2 3",
        seen: 4,
        answer: "steps 1 1 1",
    },
    Case {
        matrix: "2 4 1 2 1 1 1 0 2 0",
        moves: "0 1 0 -2
0 -1 0 2
-2 0 1 1",
        from: "6 0 1 0",
        to: "2 1 3 0",
        seen: 5,
        answer: "steps 3 3 1",
    },
    Case {
        matrix: "1 5 2 2 1 1 1",
        moves: "",
        from: "0 0 0 1 0",
        to: "0 0 0 0 1",
        seen: 1,
        answer: "apart",
    },
    Case {
        matrix: "3 2 1 1 1 1 1 1",
        moves: "0 0
0 0
1 -1
-1 1",
        from: "2 2",
        to: "1 3",
        seen: 3,
        answer: "steps -3",
    },
    Case {
        matrix: "2 3 1 1 0 1 0 1",
        moves: "1 -1 -1",
        from: "0 6 4",
        to: "4 2 0",
        seen: 5,
        answer: "steps 1 1 1 1",
    },
    Case {
        matrix: "1 2 1 2",
        moves: "0 0
2 -1
0 0
2 -1",
        from: "6 1",
        to: "2 3",
        seen: 4,
        answer: "steps -2 -2",
    },
    Case {
        matrix: "1 3 1 1 1",
        moves: "0 2 -2
1 -2 1
2 -2 0",
        from: "5 2 1",
        to: "0 0 8",
        seen: 25,
        answer: "steps -1 -2 -1 -3 -1 -3 -1",
    },
    Case {
        matrix: "2 5 1 1 1 1 2 2 0 1 0 2",
        moves: "0 0 0 0 0
0 0 -2 0 1
0 1 0 -1 0
0 0 0 0 0",
        from: "1 0 3 1 1",
        to: "2 1 3 1 0",
        seen: 6,
        answer: "apart",
    },
    Case {
        matrix: "2 2 0 0 1 1",
        moves: "1 -1",
        from: "0 7",
        to: "1 6",
        seen: 2,
        answer: "steps 1",
    },
    Case {
        matrix: "2 2 1 1 2 2",
        moves: "1 -1
2 -2
0 0
1 -1",
        from: "1 3",
        to: "4 0",
        seen: 5,
        answer: "steps 1 2",
    },
    Case {
        matrix: "1 3 1 2 2",
        moves: "2 0 -1
2 0 -1
-2 1 0",
        from: "4 4 0",
        to: "6 1 2",
        seen: 19,
        answer: "steps -1 -1 -3 -3 -3",
    },
    Case {
        matrix: "3 5 0 1 2 2 1 1 1 0 1 0 1 1 2 0 0",
        moves: "-1 1 0 0 -1
0 0 0 0 0",
        from: "2 1 2 0 8",
        to: "0 3 2 0 6",
        seen: 4,
        answer: "steps 1 1",
    },
    Case {
        matrix: "3 4 1 1 0 1 1 1 0 0 0 1 1 2",
        moves: "0 0 0 0
2 -2 2 0
0 0 0 0",
        from: "1 3 0 3",
        to: "2 2 1 3",
        seen: 2,
        answer: "apart",
    },
    Case {
        matrix: "3 3 1 1 1 2 1 1 1 2 1",
        moves: "0 0 0
0 0 0",
        from: "0 0 2",
        to: "0 0 2",
        seen: 1,
        answer: "steps",
    },
    Case {
        matrix: "2 3 1 1 2 1 1 2",
        moves: "0 2 -1
0 0 0
2 0 -1
2 -2 0",
        from: "1 5 0",
        to: "3 1 1",
        seen: 6,
        answer: "steps -1 4",
    },
    Case {
        matrix: "1 3 2 1 2",
        moves: "2 0 -2
-1 2 0
1 0 -1",
        from: "1 3 1",
        to: "0 7 0",
        seen: 10,
        answer: "steps 2 3 2",
    },
    Case {
        matrix: "2 4 0 0 0 1 1 1 1 1",
        moves: "1 -1 0 0
-1 1 0 0
2 0 -2 0
2 -1 -1 0",
        from: "2 1 0 5",
        to: "0 0 3 5",
        seen: 10,
        answer: "steps -3 4 -3",
    },
];
