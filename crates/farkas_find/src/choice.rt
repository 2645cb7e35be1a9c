//! What a stage eliminates.

/// The places of two rows, of which the first is positive in a column and the second negative.
#[derive(Debug, Clone, Copy)]
pub(crate) struct Pair {
    pub(crate) plus: usize,
    pub(crate) minus: usize,
}

/// The column that goes, and a pair of exact negatives in it if there is one.
#[derive(Debug, Clone, Copy)]
pub(crate) struct Choice {
    pub(crate) column: usize,
    pub(crate) pair: Option<Pair>,
}
