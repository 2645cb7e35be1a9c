//! Why a mapping is not answered, and what is wrong with a certificate.

ghost use Rattle.std.specs.Prelude.{◌≡◌};
ghost use Rattle.map_verify.specs.declared.fault.VerifyFault.TheVariants as verify;
ghost use Rattle.map_verify.specs.declared.fault.BadCertificate.TheVariants as bad;

use az_lin::Limit;
use std::alloc::{AllocError, AllocFailed};
use target_map::Which;

#[derive(Debug, Drop)]
pub enum VerifyFault {
    /// The elimination of this case leaves ±(2^127 - 1), and each case before it is refuted.
    Overflow { which: Which, case_no: u32 },
    /// A row that is composed, or made of composed rows, has an entry outside ±(2^60 - 1).
    Entry,
    /// A formula has too many cases, the first case that isn't refuted has too many rows on the way,
    /// or the derivations of the cases before it have too many steps.
    Limit(Limit),
    /// Memory ran out.
    Memory,
}

#[derive(Debug, Drop)]
pub enum BadCertificate {
    /// The first step of the case's derivation that isn't valid, counted from 0; the number of steps
    /// where each is valid and the last row is no contradiction, or where there is no step.
    Step {
        which: Which,
        case_no: u32,
        step: u64,
    },
    /// The formula isn't proved at its place, or the case has no derivation.
    Missing {
        which: Which,
        case_no: u32,
    },
    /// There are more derivations than cases, or more proofs than formulas.
    Extra,
    /// A row that is composed, or made of composed rows, has an entry outside ±(2^60 - 1).
    Entry,
    /// A formula has too many cases.
    Limit(Limit),
    /// Memory ran out.
    Memory,
}

impl From<AllocError> for VerifyFault {
    ghost from_gives = { λ _ e. e ≡ verify.Memory };

    fn from(_: AllocError) -> Self {
        VerifyFault::Memory
    }
}

impl<T: Drop> From<AllocFailed<T>> for VerifyFault {
    ghost from_gives = { λ _ e. e ≡ verify.Memory };

    fn from(_: AllocFailed<T>) -> Self {
        VerifyFault::Memory
    }
}

impl From<AllocError> for BadCertificate {
    ghost from_gives = { λ _ e. e ≡ bad.Memory };

    fn from(_: AllocError) -> Self {
        BadCertificate::Memory
    }
}
