//! The whole numbers from one to another.

/// The numbers from `low` to `high`: none where `high` is less.
#[derive(Debug, Clone, Copy, PartialEq, Eq)]
pub(crate) struct Range {
    pub(crate) low: i128,
    pub(crate) high: i128,
}
