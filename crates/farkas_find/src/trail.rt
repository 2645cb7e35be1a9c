//! A stage of the elimination, and what the stages before it have left behind.

use crate::numbered::Numbered;
use az_lin::{List, Step};

/// A column that went, and the rows of its stage that had it, after tidying.
#[derive(Debug, Drop)]
pub(crate) struct Eliminated {
    pub(crate) column: usize,
    pub(crate) rows: List<Numbered>,
}

/// The rows of a stage before it is tidied, and the number of its next new row.
#[derive(Debug, Drop)]
pub(crate) struct Stage {
    pub(crate) rows: List<Numbered>,
    pub(crate) next: u32,
    /// The steps so far.
    pub(crate) steps: List<Step>,
    /// What the earlier stages eliminated, in order.
    pub(crate) trail: List<Eliminated>,
}

/// How the stages end.
#[derive(Debug, Drop)]
pub(crate) enum Ended {
    /// The row with this number refutes the system.
    Refuted(u32),
    /// No row of these has a column that may go.
    Left(List<Numbered>),
}

/// The end of the stages, all steps, and what went on the way.
#[derive(Debug, Drop)]
pub(crate) struct Finished {
    pub(crate) ended: Ended,
    pub(crate) steps: List<Step>,
    pub(crate) trail: List<Eliminated>,
}
