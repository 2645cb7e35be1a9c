//! The case systems of one read of a stencil under a mapping with time t, processor i and two
//! memory cells in time: a later store into the cell that the read finds.
//!
//! Columns are T, W, the reader's t and i, and the storing instance's t and i; the constant is last.

pub type Rows = &'static [[i128; 7]];

/// Where the reader reads `X[t-1,i-1]`, and the domain of the storing instance.
pub const CONTEXT: Rows = &[
    [1, 0, 0, 0, 0, 0, -1],
    [0, 1, 0, 0, 0, 0, -3],
    [0, 0, 1, 0, 0, 0, 0],
    [1, 0, -1, 0, 0, 0, 0],
    [0, 0, 0, 1, 0, 0, 0],
    [0, 1, 0, -1, 0, 0, -1],
    [0, 0, 1, 0, 0, 0, -1],
    [0, 0, 0, 1, 0, 0, -1],
    [0, 1, 0, -1, 0, 0, -2],
    [0, 0, 0, 0, 1, 0, 0],
    [1, 0, 0, 0, -1, 0, 0],
    [0, 0, 0, 0, 0, 1, 0],
    [0, 1, 0, 0, 0, -1, -1],
];

/// The store's cell is that of the value read: equal times, or times at least 2 apart; equal i.
pub const SAME_CELL: [Rows; 3] = [
    &[
        [0, 0, -1, 0, 1, 0, 1],
        [0, 0, 1, 0, -1, 0, -1],
        [0, 0, 0, -1, 0, 1, 1],
        [0, 0, 0, 1, 0, -1, -1],
    ],
    &[
        [0, 0, -1, 0, 1, 0, -1],
        [0, 0, 0, -1, 0, 1, 1],
        [0, 0, 0, 1, 0, -1, -1],
    ],
    &[
        [0, 0, 1, 0, -1, 0, -3],
        [0, 0, 0, -1, 0, 1, 1],
        [0, 0, 0, 1, 0, -1, -1],
    ],
];

/// The store is another instance than the one whose value is read.
pub const OTHER_THAN_READ: [Rows; 4] = [
    &[[0, 0, -1, 0, 1, 0, 0]],
    &[[0, 0, 1, 0, -1, 0, -2]],
    &[[0, 0, 0, -1, 0, 1, 0]],
    &[[0, 0, 0, 1, 0, -1, -2]],
];

/// The store doesn't come before the one whose value is read.
pub const NOT_BEFORE_READ: [Rows; 5] = [
    &[[0, 0, -1, 0, 1, 0, 0]],
    &[
        [0, 0, -1, 0, 1, 0, 1],
        [0, 0, 1, 0, -1, 0, -1],
        [0, 0, 0, -1, 0, 1, 0],
    ],
    &[
        [0, 0, -1, 0, 1, 0, 1],
        [0, 0, 1, 0, -1, 0, -1],
        [0, 0, 0, 1, 0, -1, -2],
    ],
    &[
        [0, 0, -1, 0, 1, 0, 1],
        [0, 0, 1, 0, -1, 0, -1],
        [0, 0, 0, 0, 0, 0, -1],
    ],
    &[
        [0, 0, -1, 0, 1, 0, 1],
        [0, 0, 1, 0, -1, 0, -1],
        [0, 0, 0, 0, 0, 0, 0],
        [0, 0, 0, 0, 0, 0, 0],
    ],
];

/// The store is another instance than the reader.
pub const OTHER_THAN_READER: [Rows; 4] = [
    &[[0, 0, -1, 0, 1, 0, -1]],
    &[[0, 0, 1, 0, -1, 0, -1]],
    &[[0, 0, 0, -1, 0, 1, -1]],
    &[[0, 0, 0, 1, 0, -1, -1]],
];

/// The reader doesn't come before the store.
pub const NOT_BEFORE_STORE: [Rows; 5] = [
    &[[0, 0, 1, 0, -1, 0, -1]],
    &[
        [0, 0, 1, 0, -1, 0, 0],
        [0, 0, -1, 0, 1, 0, 0],
        [0, 0, 0, 1, 0, -1, -1],
    ],
    &[
        [0, 0, 1, 0, -1, 0, 0],
        [0, 0, -1, 0, 1, 0, 0],
        [0, 0, 0, -1, 0, 1, -1],
    ],
    &[
        [0, 0, 1, 0, -1, 0, 0],
        [0, 0, -1, 0, 1, 0, 0],
        [0, 0, 0, 0, 0, 0, -1],
    ],
    &[
        [0, 0, 1, 0, -1, 0, 0],
        [0, 0, -1, 0, 1, 0, 0],
        [0, 0, 0, 0, 0, 0, 0],
        [0, 0, 0, 0, 0, 0, 0],
    ],
];
