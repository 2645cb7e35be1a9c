//! Domains of several disjuncts.

use crate::case::Case;

pub(crate) const UNIONS: [Case; 8] = [
    Case {
        name: "two disjuncts apart",
        width: 1,
        params: &[],
        disjuncts: &[&[&[1, 0], &[-1, 1]], &[&[1, -4], &[-1, 5]]],
        members: &[&[0], &[1], &[4], &[5]],
    },
    Case {
        name: "two disjuncts that overlap",
        width: 1,
        params: &[],
        disjuncts: &[&[&[1, 0], &[-1, 2]], &[&[1, -1], &[-1, 3]]],
        members: &[&[0], &[1], &[2], &[3]],
    },
    Case {
        name: "the later disjunct comes first",
        width: 1,
        params: &[],
        disjuncts: &[&[&[1, -4], &[-1, 5]], &[&[1, 0], &[-1, 1]]],
        members: &[&[0], &[1], &[4], &[5]],
    },
    Case {
        name: "the same disjunct three times",
        width: 1,
        params: &[],
        disjuncts: &[
            &[&[1, 0], &[-1, 1]],
            &[&[1, 0], &[-1, 1]],
            &[&[1, 0], &[-1, 1]],
        ],
        members: &[&[0], &[1]],
    },
    Case {
        name: "an empty disjunct between others",
        width: 1,
        params: &[],
        disjuncts: &[
            &[&[1, -2], &[-1, 3]],
            &[&[1, -9], &[-1, 8]],
            &[&[1, 0], &[-1, 0]],
        ],
        members: &[&[0], &[2], &[3]],
    },
    Case {
        name: "disjuncts that are all empty",
        width: 1,
        params: &[],
        disjuncts: &[&[&[1, -9], &[-1, 8]], &[&[0, -1]]],
        members: &[],
    },
    Case {
        name: "a row and a column that cross",
        width: 2,
        params: &[],
        disjuncts: &[
            &[&[1, 0, -1], &[-1, 0, 1], &[0, 1, 0], &[0, -1, 2]],
            &[&[1, 0, 0], &[-1, 0, 2], &[0, 1, -1], &[0, -1, 1]],
        ],
        members: &[&[0, 1], &[1, 0], &[1, 1], &[1, 2], &[2, 1]],
    },
    Case {
        name: "eight disjuncts, the points from 7 down to 0",
        width: 1,
        params: &[],
        disjuncts: &[
            &[&[1, -7], &[-1, 7]],
            &[&[1, -6], &[-1, 6]],
            &[&[1, -5], &[-1, 5]],
            &[&[1, -4], &[-1, 4]],
            &[&[1, -3], &[-1, 3]],
            &[&[1, -2], &[-1, 2]],
            &[&[1, -1], &[-1, 1]],
            &[&[1, 0], &[-1, 0]],
        ],
        members: &[&[0], &[1], &[2], &[3], &[4], &[5], &[6], &[7]],
    },
];
