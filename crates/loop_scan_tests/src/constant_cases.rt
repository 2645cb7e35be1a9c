//! Domains without indices, constant rows, and parameters.

use crate::case::Case;

pub(crate) const CONSTANT: [Case; 5] = [
    Case {
        name: "no indices, and rows that hold",
        width: 1,
        params: &[7],
        disjuncts: &[&[&[1, -7]]],
        members: &[&[]],
    },
    Case {
        name: "no indices, and a row that doesn't hold",
        width: 1,
        params: &[6],
        disjuncts: &[&[&[1, -7]]],
        members: &[],
    },
    Case {
        name: "no columns and no rows",
        width: 0,
        params: &[],
        disjuncts: &[&[]],
        members: &[&[]],
    },
    Case {
        name: "a constant row that refutes",
        width: 1,
        params: &[],
        disjuncts: &[&[&[0, -1], &[1, 0], &[-1, 3]]],
        members: &[],
    },
    Case {
        name: "two parameters",
        width: 3,
        params: &[2, -1],
        disjuncts: &[&[&[0, -1, 1, 0], &[1, 0, -1, 0]]],
        members: &[&[-1], &[0], &[1], &[2]],
    },
];
