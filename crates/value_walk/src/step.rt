//! A step of the walk.

use crate::slot::Slot;

/// A point whose value is asked for, or one that is begun: its value waits for those of the points
/// that it reads.
#[derive(Clone, Copy, PartialEq, Eq)]
pub(crate) enum Step {
    Asked(Slot),
    Begun(Slot),
}
