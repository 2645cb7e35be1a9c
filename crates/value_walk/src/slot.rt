//! A point of an output or local, and how far its value is.

/// The point by its variable's number and its place among the points of the variable.
#[derive(Clone, Copy, PartialEq, Eq)]
pub(crate) struct Slot {
    pub(crate) variable: u32,
    pub(crate) place: usize,
}

/// An open point's value waits for those of the points that it reads.
#[derive(Clone, Copy, PartialEq, Eq)]
pub(crate) enum State {
    Unknown,
    Open,
    Known(i64),
}
