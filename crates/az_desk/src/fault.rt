//! Why a call on a desk did not do what was asked.

ghost use Rattle.std.specs.Prelude.{◌≡◌, Err};
ghost use Rattle.az_desk.specs.Desk.{next_count};
ghost use Rattle.az_desk.specs.declared.fault.DeskFault.TheVariants.{Failed, Memory};

use std::alloc::{AllocError, AllocFailed};

#[derive(Debug, Clone, Copy, PartialEq, Eq)]
pub enum DeskFault {
    /// The desk failed, and its count of faults rose.
    Failed,
    /// The file has more than 2^24 bytes.
    TooLong,
    /// Memory ran out.
    Memory,
}

impl From<AllocError> for DeskFault {
    ghost from_gives = { λ _ e. e ≡ Memory };

    fn from(_: AllocError) -> Self {
        DeskFault::Memory
    }
}

impl<T: Drop> From<AllocFailed<T>> for DeskFault {
    ghost from_gives = { λ _ e. e ≡ Memory };

    fn from(_: AllocFailed<T>) -> Self {
        DeskFault::Memory
    }
}

/// Counts a fault and answers it.
pub(crate) fn fail<T>(faults: &mut u64) -> Result<T, DeskFault>
    ensures answer { result ≡ Err Failed }
    ensures counted { faults.new ≡ next_count faults.old }
{
    *faults = faults.saturating_add(1);
    Err(DeskFault::Failed)
}
