//! Why a program is not certified.

ghost use Rattle.std.specs.Prelude.{◌≡◌};
ghost use Rattle.domain_check.specs.declared.fault.CertifyFault.TheVariants.{Memory};

use az_lin::{Limit, RatPoint};
use std::alloc::{AllocError, AllocFailed};

/// What a check looks for.
#[derive(Debug, Clone, Copy, PartialEq, Eq)]
pub enum CheckKind {
    /// A direction in which a variable's domain goes on for ever.
    Unbounded,
    /// A point that two branches hold.
    Overlap,
    /// A point that no branch holds.
    Gap,
    /// A point that is read outside the variable's domain.
    Outside,
    /// A direction in which a reduction's domain goes on for ever.
    Endless,
}

/// A case that isn't refuted: its number among those of the variable's domain, or of the variable's
/// equation, and a point that is open for it. For `Unbounded` and `Endless` the point is a direction.
#[derive(Debug, Drop)]
pub struct CheckNo {
    pub kind: CheckKind,
    pub variable: u32,
    pub case_no: u32,
    pub point: RatPoint,
}

#[derive(Debug, Drop)]
pub enum CertifyFault {
    /// The first case that isn't refuted.
    No(CheckNo),
    /// The elimination of this case leaves ±(2^127 - 1), and each case before it is refuted.
    Overflow {
        kind: CheckKind,
        variable: u32,
        case_no: u32,
    },
    /// A composed or negated row has an entry outside ±(2^60 - 1).
    Entry,
    /// The checks of one kind at one place have too many cases together, or the elimination of the
    /// first case that isn't refuted has too many rows.
    Limit(Limit),
    /// Memory ran out.
    Memory,
}

impl From<AllocError> for CertifyFault {
    ghost from_gives = { λ _ e. e ≡ Memory };

    fn from(_: AllocError) -> Self {
        CertifyFault::Memory
    }
}

impl<T: Drop> From<AllocFailed<T>> for CertifyFault {
    ghost from_gives = { λ _ e. e ≡ Memory };

    fn from(_: AllocFailed<T>) -> Self {
        CertifyFault::Memory
    }
}
