//! Why a domain isn't scanned.

ghost use Rattle.std.specs.Prelude.{◌≡◌};
ghost use Rattle.loop_scan.specs.declared.fault.ScanFault.TheVariants.{Memory};

use az_lin::Limit;
use std::alloc::{AllocError, AllocFailed};

#[derive(Debug, Drop)]
pub enum ScanFault {
    /// The elimination for the box leaves ±(2^127 - 1).
    Overflow,
    /// A parameter put into a row leaves ±(2^60 - 1).
    Entry,
    /// A count or a coordinate passes a limit.
    Limit(Limit),
    /// Memory ran out.
    Memory,
}

impl From<AllocError> for ScanFault {
    ghost from_gives = { λ _ e. e ≡ Memory };

    fn from(_: AllocError) -> Self {
        ScanFault::Memory
    }
}

impl<T: Drop> From<AllocFailed<T>> for ScanFault {
    ghost from_gives = { λ _ e. e ≡ Memory };

    fn from(_: AllocFailed<T>) -> Self {
        ScanFault::Memory
    }
}
