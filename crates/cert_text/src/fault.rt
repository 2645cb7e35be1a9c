//! Why a certificate isn't read or written.

ghost use Rattle.std.specs.Prelude.{◌≡◌};
ghost use Rattle.cert_text.specs.declared.fault.CertFault.TheVariants.{Memory};

use az_lin::Limit;
use std::alloc::{AllocError, AllocFailed};

#[derive(Debug, Clone, Copy, PartialEq, Eq)]
pub enum CertFault {
    /// The first line outside the grammar, counted from 1.
    BadLine(u64),
    /// The text would have more bytes than a file may have.
    Limit(Limit),
    /// Memory ran out.
    Memory,
}

impl From<AllocError> for CertFault {
    ghost from_gives = { λ _ e. e ≡ Memory };

    fn from(_: AllocError) -> Self {
        CertFault::Memory
    }
}

impl<T: Drop> From<AllocFailed<T>> for CertFault {
    ghost from_gives = { λ _ e. e ≡ Memory };

    fn from(_: AllocFailed<T>) -> Self {
        CertFault::Memory
    }
}
