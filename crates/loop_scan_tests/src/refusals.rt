//! Domains that aren't scanned or listed, and why.

use crate::system::Disjuncts;

/// What a call answers.
#[derive(Debug, Clone, Copy, PartialEq, Eq)]
pub(crate) enum Answer {
    Points(usize),
    Overflow,
    Entry,
    Rows,
    Coordinate,
    BoxPoints,
    Other,
}

/// The answers of the scanner and of the list.
pub(crate) struct Refusal {
    pub(crate) name: &'static str,
    pub(crate) width: usize,
    pub(crate) params: &'static [i128],
    pub(crate) disjuncts: Disjuncts,
    pub(crate) scanned: Answer,
    pub(crate) listed: Answer,
}

const LARGE: i128 = 1 << 59;

pub(crate) const REFUSALS: [Refusal; 14] = [
    Refusal {
        name: "no upper bound",
        width: 1,
        params: &[],
        disjuncts: &[&[&[1, 0]]],
        scanned: Answer::Coordinate,
        listed: Answer::Coordinate,
    },
    Refusal {
        name: "no lower bound of the second index",
        width: 2,
        params: &[],
        disjuncts: &[&[&[1, 0, 0], &[-1, 0, 3], &[1, -1, 0]]],
        scanned: Answer::Coordinate,
        listed: Answer::Coordinate,
    },
    Refusal {
        name: "a bound past the greatest coordinate",
        width: 1,
        params: &[],
        disjuncts: &[&[&[1, -1099511627776], &[-1, 1099511627776]]],
        scanned: Answer::Coordinate,
        listed: Answer::Coordinate,
    },
    Refusal {
        name: "a parameter past the greatest coordinate, in no row",
        width: 2,
        params: &[1099511627776],
        disjuncts: &[&[&[0, 1, 0], &[0, -1, 1]]],
        scanned: Answer::Coordinate,
        listed: Answer::Coordinate,
    },
    Refusal {
        name: "a parameter that no row can take",
        width: 2,
        params: &[4],
        disjuncts: &[&[&[LARGE, 1, 0], &[0, -1, 1]]],
        scanned: Answer::Entry,
        listed: Answer::Entry,
    },
    Refusal {
        name: "such a parameter past the greatest coordinate",
        width: 2,
        params: &[1099511627776],
        disjuncts: &[&[&[LARGE, 1, 0], &[0, -1, 1]]],
        scanned: Answer::Entry,
        listed: Answer::Entry,
    },
    Refusal {
        name: "the row of a later disjunct, before an index of the first",
        width: 2,
        params: &[4],
        disjuncts: &[&[&[0, 1, 0]], &[&[LARGE, 1, 0], &[0, -1, 1]]],
        scanned: Answer::Entry,
        listed: Answer::Entry,
    },
    Refusal {
        name: "a contradiction, before an index without bounds",
        width: 2,
        params: &[],
        disjuncts: &[&[&[0, 0, -1], &[1, 0, 0]]],
        scanned: Answer::Points(0),
        listed: Answer::Points(0),
    },
    Refusal {
        name: "an empty range, which the next index meets as a contradiction",
        width: 2,
        params: &[],
        disjuncts: &[&[&[2, 0, -1], &[-2, 0, 1], &[0, 1, 0]]],
        scanned: Answer::Points(0),
        listed: Answer::Points(0),
    },
    Refusal {
        name: "an index of the second disjunct without bounds",
        width: 1,
        params: &[],
        disjuncts: &[&[&[1, 0], &[-1, 1]], &[&[1, 0]]],
        scanned: Answer::Coordinate,
        listed: Answer::Coordinate,
    },
    Refusal {
        name: "a diagonal whose box has 2^22 points",
        width: 2,
        params: &[],
        disjuncts: &[&[&[1, -1, 0], &[-1, 1, 0], &[1, 0, 0], &[-1, 0, 2047]]],
        scanned: Answer::Points(2048),
        listed: Answer::Points(2048),
    },
    Refusal {
        name: "a diagonal whose box has more",
        width: 2,
        params: &[],
        disjuncts: &[&[&[1, -1, 0], &[-1, 1, 0], &[1, 0, 0], &[-1, 0, 2048]]],
        scanned: Answer::Points(2049),
        listed: Answer::BoxPoints,
    },
    Refusal {
        name: "two disjuncts with a wide hull",
        width: 1,
        params: &[],
        disjuncts: &[&[&[1, 0], &[-1, 1]], &[&[1, -4194304], &[-1, 4194305]]],
        scanned: Answer::Points(4),
        listed: Answer::BoxPoints,
    },
    Refusal {
        name: "a wide hull but for a disjunct that is empty",
        width: 1,
        params: &[],
        disjuncts: &[&[&[1, 0], &[-1, 1]], &[&[2, -8388607], &[-2, 8388607]]],
        scanned: Answer::Points(2),
        listed: Answer::Points(2),
    },
];
