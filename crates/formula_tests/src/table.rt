//! Formulas, their cases in order, and what refutes them or which case is open where.
//!
//! The cases follow from the formula. The steps and points follow from the stages of the
//! elimination: rounded rows, the strongest of equal rows, the column, the combined rows.

use crate::Sign;
use crate::Sign::{All, Any, Row};

/// The numbers a, i, b, j and g of a step.
pub(crate) type Numbers = (i128, u32, i128, u32, i128);

pub(crate) enum Wanted {
    /// The steps for each case.
    Yes(&'static [&'static [Numbers]]),
    /// The case that is open, and the point over its denominator.
    No(u32, &'static [i128], i128),
    /// The case whose numbers leave 128 bits.
    Overflow(u32),
}

use Wanted::{No, Overflow, Yes};

pub(crate) struct Entry {
    pub(crate) width: usize,
    pub(crate) signs: &'static [Sign],
    /// The rows of each case.
    pub(crate) cases: &'static [&'static [&'static [i128]]],
    pub(crate) wanted: Wanted,
}

/// The sum of the first two rows.
const SUM: &[Numbers] = &[(1, 0, 1, 1, 1)];

/// The first row is a contradiction.
const FIRST: &[Numbers] = &[(1, 0, 0, 0, 1)];

const GREAT: i128 = 1 << 59;

/// One row each.
pub(crate) const ROWS: &[Entry] = &[
    // x
    Entry {
        width: 1,
        signs: &[Row(&[1, 0])],
        cases: &[&[&[1, 0]]],
        wanted: No(0, &[0], 1),
    },
    // x-3
    Entry {
        width: 1,
        signs: &[Row(&[1, -3])],
        cases: &[&[&[1, -3]]],
        wanted: No(0, &[3], 1),
    },
    // -x+2: no lower bound, so the upper one
    Entry {
        width: 1,
        signs: &[Row(&[-1, 2])],
        cases: &[&[&[-1, 2]]],
        wanted: No(0, &[2], 1),
    },
    // 0
    Entry {
        width: 1,
        signs: &[Row(&[0, 0])],
        cases: &[&[&[0, 0]]],
        wanted: No(0, &[0], 1),
    },
    // -1
    Entry {
        width: 1,
        signs: &[Row(&[0, -1])],
        cases: &[&[&[0, -1]]],
        wanted: Yes(&[FIRST]),
    },
    // 5
    Entry {
        width: 1,
        signs: &[Row(&[0, 5])],
        cases: &[&[&[0, 5]]],
        wanted: No(0, &[0], 1),
    },
];

/// All and any of nothing.
pub(crate) const NOTHING: &[Entry] = &[
    // All of nothing is true
    Entry {
        width: 1,
        signs: &[All(0)],
        cases: &[&[]],
        wanted: No(0, &[0], 1),
    },
    // Any of nothing is false
    Entry {
        width: 1,
        signs: &[Any(0)],
        cases: &[],
        wanted: Yes(&[]),
    },
    // All[Any[], x]
    Entry {
        width: 1,
        signs: &[All(2), Any(0), Row(&[1, 0])],
        cases: &[],
        wanted: Yes(&[]),
    },
    // All[x, Any[]]
    Entry {
        width: 1,
        signs: &[All(2), Row(&[1, 0]), Any(0)],
        cases: &[],
        wanted: Yes(&[]),
    },
    // Any[All[]]
    Entry {
        width: 1,
        signs: &[Any(1), All(0)],
        cases: &[&[]],
        wanted: No(0, &[0], 1),
    },
    // All[All[], All[]]
    Entry {
        width: 1,
        signs: &[All(2), All(0), All(0)],
        cases: &[&[]],
        wanted: No(0, &[0], 1),
    },
    // Any[Any[], Any[]]
    Entry {
        width: 1,
        signs: &[Any(2), Any(0), Any(0)],
        cases: &[],
        wanted: Yes(&[]),
    },
];

/// All or any of two rows over one column.
pub(crate) const INTERVALS: &[Entry] = &[
    // All[x-1, -x]
    Entry {
        width: 1,
        signs: &[All(2), Row(&[1, -1]), Row(&[-1, 0])],
        cases: &[&[&[1, -1], &[-1, 0]]],
        wanted: Yes(&[SUM]),
    },
    // Any[x-1, -x]
    Entry {
        width: 1,
        signs: &[Any(2), Row(&[1, -1]), Row(&[-1, 0])],
        cases: &[&[&[1, -1]], &[&[-1, 0]]],
        wanted: No(0, &[1], 1),
    },
    // All[x, -x]: x is 0
    Entry {
        width: 1,
        signs: &[All(2), Row(&[1, 0]), Row(&[-1, 0])],
        cases: &[&[&[1, 0], &[-1, 0]]],
        wanted: No(0, &[0], 1),
    },
    // All[x-2, -x+5]: the lower bound
    Entry {
        width: 1,
        signs: &[All(2), Row(&[1, -2]), Row(&[-1, 5])],
        cases: &[&[&[1, -2], &[-1, 5]]],
        wanted: No(0, &[2], 1),
    },
    // 2x-1 is rounded to x-1
    Entry {
        width: 1,
        signs: &[Row(&[2, -1])],
        cases: &[&[&[2, -1]]],
        wanted: No(0, &[1], 1),
    },
    // All[2x-1, -2x+1]: x-1 and -x, although 1/2 is between
    Entry {
        width: 1,
        signs: &[All(2), Row(&[2, -1]), Row(&[-2, 1])],
        cases: &[&[&[2, -1], &[-2, 1]]],
        wanted: Yes(&[&[(1, 0, 0, 0, 2), (1, 1, 0, 1, 2), (1, 2, 1, 3, 1)]]),
    },
];

/// Several cases.
pub(crate) const CHOICES: &[Entry] = &[
    // Any[All[x-1, -x], All[x-2, -x]]
    Entry {
        width: 1,
        signs: &[
            Any(2),
            All(2),
            Row(&[1, -1]),
            Row(&[-1, 0]),
            All(2),
            Row(&[1, -2]),
            Row(&[-1, 0]),
        ],
        cases: &[&[&[1, -1], &[-1, 0]], &[&[1, -2], &[-1, 0]]],
        wanted: Yes(&[SUM, SUM]),
    },
    // Any[All[x-1, -x], x]: the second case is the first open one
    Entry {
        width: 1,
        signs: &[Any(2), All(2), Row(&[1, -1]), Row(&[-1, 0]), Row(&[1, 0])],
        cases: &[&[&[1, -1], &[-1, 0]], &[&[1, 0]]],
        wanted: No(1, &[0], 1),
    },
    // All[Any[x-1, -x-1], Any[x-5, -x+7]]: the last member fastest; of x-1 and x-5 the stronger
    Entry {
        width: 1,
        signs: &[
            All(2),
            Any(2),
            Row(&[1, -1]),
            Row(&[-1, -1]),
            Any(2),
            Row(&[1, -5]),
            Row(&[-1, 7]),
        ],
        cases: &[
            &[&[1, -1], &[1, -5]],
            &[&[1, -1], &[-1, 7]],
            &[&[-1, -1], &[1, -5]],
            &[&[-1, -1], &[-1, 7]],
        ],
        wanted: No(0, &[5], 1),
    },
    // All[Any[x-1, x-2], -x, Any[x, x+1]]: four cases, each refuted by its stronger lower bound
    Entry {
        width: 1,
        signs: &[
            All(3),
            Any(2),
            Row(&[1, -1]),
            Row(&[1, -2]),
            Row(&[-1, 0]),
            Any(2),
            Row(&[1, 0]),
            Row(&[1, 1]),
        ],
        cases: &[
            &[&[1, -1], &[-1, 0], &[1, 0]],
            &[&[1, -1], &[-1, 0], &[1, 1]],
            &[&[1, -2], &[-1, 0], &[1, 0]],
            &[&[1, -2], &[-1, 0], &[1, 1]],
        ],
        wanted: Yes(&[SUM, SUM, SUM, SUM]),
    },
    // All[x, All[x-1, -x]]: x-1 is stronger than x
    Entry {
        width: 1,
        signs: &[All(2), Row(&[1, 0]), All(2), Row(&[1, -1]), Row(&[-1, 0])],
        cases: &[&[&[1, 0], &[1, -1], &[-1, 0]]],
        wanted: Yes(&[&[(1, 1, 1, 2, 1)]]),
    },
    // Any[Any[x-1], Any[-x]]
    Entry {
        width: 1,
        signs: &[Any(2), Any(1), Row(&[1, -1]), Any(1), Row(&[-1, 0])],
        cases: &[&[&[1, -1]], &[&[-1, 0]]],
        wanted: No(0, &[1], 1),
    },
];

/// Rows without a coefficient.
pub(crate) const CONSTANTS: &[Entry] = &[
    // Any[-1, All[0, -1], All[-1, 0]]: the first contradiction in each
    Entry {
        width: 1,
        signs: &[
            Any(3),
            Row(&[0, -1]),
            All(2),
            Row(&[0, 0]),
            Row(&[0, -1]),
            All(2),
            Row(&[0, -1]),
            Row(&[0, 0]),
        ],
        cases: &[&[&[0, -1]], &[&[0, 0], &[0, -1]], &[&[0, -1], &[0, 0]]],
        wanted: Yes(&[FIRST, &[(1, 1, 0, 1, 1)], FIRST]),
    },
    // Nothing to choose, over no column
    Entry {
        width: 0,
        signs: &[Any(2), Row(&[-1]), Row(&[0])],
        cases: &[&[&[-1]], &[&[0]]],
        wanted: No(1, &[], 1),
    },
];

/// Two columns.
pub(crate) const PLANES: &[Entry] = &[
    // All[x-y-1, -x+y]
    Entry {
        width: 2,
        signs: &[All(2), Row(&[1, -1, -1]), Row(&[-1, 1, 0])],
        cases: &[&[&[1, -1, -1], &[-1, 1, 0]]],
        wanted: Yes(&[SUM]),
    },
    // All[x-1, y-1, -x-y+1]: x goes, which leaves y-1 and -y
    Entry {
        width: 2,
        signs: &[
            All(3),
            Row(&[1, 0, -1]),
            Row(&[0, 1, -1]),
            Row(&[-1, -1, 1]),
        ],
        cases: &[&[&[1, 0, -1], &[0, 1, -1], &[-1, -1, 1]]],
        wanted: Yes(&[&[(1, 0, 1, 2, 1), (1, 1, 1, 3, 1)]]),
    },
    // All[x-1, y-2]
    Entry {
        width: 2,
        signs: &[All(2), Row(&[1, 0, -1]), Row(&[0, 1, -2])],
        cases: &[&[&[1, 0, -1], &[0, 1, -2]]],
        wanted: No(0, &[1, 2], 1),
    },
    // 2x-y-1: y is 0, and x is 1/2
    Entry {
        width: 2,
        signs: &[Row(&[2, -1, -1])],
        cases: &[&[&[2, -1, -1]]],
        wanted: No(0, &[1, 0], 2),
    },
    // All[x-y, -x+y, x-3]: x is y
    Entry {
        width: 2,
        signs: &[All(3), Row(&[1, -1, 0]), Row(&[-1, 1, 0]), Row(&[1, 0, -3])],
        cases: &[&[&[1, -1, 0], &[-1, 1, 0], &[1, 0, -3]]],
        wanted: No(0, &[3, 3], 1),
    },
    // All[Any[x-1, y-1], All[-x, -y]]
    Entry {
        width: 2,
        signs: &[
            All(2),
            Any(2),
            Row(&[1, 0, -1]),
            Row(&[0, 1, -1]),
            All(2),
            Row(&[-1, 0, 0]),
            Row(&[0, -1, 0]),
        ],
        cases: &[
            &[&[1, 0, -1], &[-1, 0, 0], &[0, -1, 0]],
            &[&[0, 1, -1], &[-1, 0, 0], &[0, -1, 0]],
        ],
        wanted: Yes(&[SUM, &[(1, 0, 1, 2, 1)]]),
    },
];

/// A case whose numbers leave 128 bits.
pub(crate) const GREAT_NUMBERS: &[Entry] = &[
    // With M = 2^59, the second stage of M x+y+z+1, -(M-1) x+M y-z+1 and -(M-1) x-M y+z+1
    Entry {
        width: 3,
        signs: &[
            Any(2),
            Row(&[0, 0, 0, -1]),
            All(3),
            Row(&[GREAT, 1, 1, 1]),
            Row(&[1 - GREAT, GREAT, -1, 1]),
            Row(&[1 - GREAT, -GREAT, 1, 1]),
        ],
        cases: &[
            &[&[0, 0, 0, -1]],
            &[
                &[GREAT, 1, 1, 1],
                &[1 - GREAT, GREAT, -1, 1],
                &[1 - GREAT, -GREAT, 1, 1],
            ],
        ],
        wanted: Overflow(1),
    },
];
