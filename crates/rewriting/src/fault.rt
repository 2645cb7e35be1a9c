//! Why a program is not changed.

ghost use Rattle.std.specs.Prelude.{◌≡◌};
ghost use Rattle.rewriting.specs.Answers.{of_rows, of_certification};
ghost use Rattle.rewriting.specs.declared.fault.ChangeFault.TheVariants.{Memory};

use az_ast::Reason;
use az_lin::{Limit, LinFault};
use domain_check::CertifyFault;
use std::alloc::{AllocError, AllocFailed};

#[derive(Debug, Drop)]
pub enum ChangeFault {
    Reason(Reason),
    /// The result is not certified.
    Certify(CertifyFault),
    /// The number of the removed piece whose elimination leaves ±(2^127 - 1); 0 for the inversion of a map.
    Overflow(u32),
    /// The result exceeds a limit on programs.
    Limit(Limit),
    /// Memory ran out.
    Memory,
}

impl From<AllocError> for ChangeFault {
    ghost from_gives = { λ _ e. e ≡ Memory };

    fn from(_: AllocError) -> Self {
        ChangeFault::Memory
    }
}

impl<T: Drop> From<AllocFailed<T>> for ChangeFault {
    ghost from_gives = { λ _ e. e ≡ Memory };

    fn from(_: AllocFailed<T>) -> Self {
        ChangeFault::Memory
    }
}

impl From<LinFault> for ChangeFault {
    ghost from_gives = { λ fault e. e ≡ of_rows fault };

    fn from(fault: LinFault) -> Self {
        match fault {
            LinFault::Entry => ChangeFault::Reason(Reason::Entry),
            LinFault::NoInverse(evidence) => ChangeFault::Reason(Reason::NoInverse(evidence)),
            LinFault::Overflow => ChangeFault::Overflow(0),
            LinFault::Memory => ChangeFault::Memory,
        }
    }
}

impl From<CertifyFault> for ChangeFault {
    ghost from_gives = { λ fault e. e ≡ of_certification fault };

    fn from(fault: CertifyFault) -> Self {
        match fault {
            CertifyFault::Memory => ChangeFault::Memory,
            fault => ChangeFault::Certify(fault),
        }
    }
}
