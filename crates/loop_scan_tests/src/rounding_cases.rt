//! Lattices, bounds that are rounded, negative numbers, and numbers far out.

use crate::case::Case;

pub(crate) const ROUNDED: [Case; 9] = [
    Case {
        name: "the lattice 2 i = j",
        width: 2,
        params: &[],
        disjuncts: &[&[&[2, -1, 0], &[-2, 1, 0], &[0, 1, 0], &[0, -1, 7]]],
        members: &[&[0, 0], &[1, 2], &[2, 4], &[3, 6]],
    },
    Case {
        name: "the lattice i = 2 j, whose outer index has gaps",
        width: 2,
        params: &[],
        disjuncts: &[&[&[1, -2, 0], &[-1, 2, 0], &[1, 0, 0], &[-1, 0, 5]]],
        members: &[&[0, 0], &[2, 1], &[4, 2]],
    },
    Case {
        name: "an equality that no whole number meets",
        width: 1,
        params: &[],
        disjuncts: &[&[&[2, -1], &[-2, 1]]],
        members: &[],
    },
    Case {
        name: "an odd sum of even numbers",
        width: 2,
        params: &[],
        disjuncts: &[&[
            &[2, 2, -5],
            &[-2, -2, 5],
            &[1, 0, 0],
            &[-1, 0, 3],
            &[0, 1, 0],
            &[0, -1, 3],
        ]],
        members: &[],
    },
    Case {
        name: "bounds that are no whole numbers",
        width: 1,
        params: &[],
        disjuncts: &[&[&[3, -4], &[-3, 10]]],
        members: &[&[2], &[3]],
    },
    Case {
        name: "negative numbers, rounded inwards",
        width: 1,
        params: &[],
        disjuncts: &[&[&[2, 7], &[-2, -1]]],
        members: &[&[-3], &[-2], &[-1]],
    },
    Case {
        name: "negative coefficients outside",
        width: 2,
        params: &[],
        disjuncts: &[&[&[-1, 0, -1], &[1, 0, 3], &[-1, -1, 0], &[1, 1, 1]]],
        members: &[&[-3, 2], &[-3, 3], &[-2, 1], &[-2, 2], &[-1, 0], &[-1, 1]],
    },
    Case {
        name: "numbers next to the greatest coordinate",
        width: 1,
        params: &[],
        disjuncts: &[&[&[1, -1099511627774], &[-1, 1099511627775]]],
        members: &[&[1099511627774], &[1099511627775]],
    },
    Case {
        name: "a thin band in a wide box",
        width: 2,
        params: &[],
        disjuncts: &[&[&[1, 0, 0], &[-1, 0, 2], &[-1024, 1, 0], &[1024, -1, 1]]],
        members: &[
            &[0, 0],
            &[0, 1],
            &[1, 1024],
            &[1, 1025],
            &[2, 2048],
            &[2, 2049],
        ],
    },
];
