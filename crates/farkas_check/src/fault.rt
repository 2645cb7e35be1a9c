//! Why a derivation is not accepted.

ghost use Rattle.std.specs.Prelude.{◌≡◌};
ghost use Rattle.farkas_check.specs.declared.fault.CheckFault.TheVariants.{Memory};

use std::alloc::{AllocError, AllocFailed};

#[derive(Debug, Clone, Copy, PartialEq, Eq)]
pub enum CheckFault {
    /// The first step that isn't valid, counted from 0, or the number of steps where each is valid
    /// and the last row is no contradiction, or where there is no step.
    BadStep { number: u64 },
    /// Memory ran out.
    Memory,
}

impl From<AllocError> for CheckFault {
    ghost from_gives = { λ _ e. e ≡ Memory };

    fn from(_: AllocError) -> Self {
        CheckFault::Memory
    }
}

impl<T: Drop> From<AllocFailed<T>> for CheckFault {
    ghost from_gives = { λ _ e. e ≡ Memory };

    fn from(_: AllocFailed<T>) -> Self {
        CheckFault::Memory
    }
}
