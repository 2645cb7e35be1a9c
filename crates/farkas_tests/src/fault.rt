//! Why a test's system wasn't made or wasn't decided.

ghost use Rattle.std.specs.Prelude.{◌≡◌};
ghost use Rattle.az_lin.specs.declared.fault.LinFault.TheVariants.{Memory};
ghost use Rattle.farkas_tests.specs.declared.fault.Fault.TheVariants.{Rows, Elimination};

use az_lin::LinFault;
use farkas_find::FindFault;
use std::alloc::{AllocError, AllocFailed};

#[derive(Debug, Drop)]
pub enum Fault {
    Rows(LinFault),
    Elimination(FindFault),
}

impl From<LinFault> for Fault {
    ghost from_gives = { λ fault e. e ≡ Rows fault };

    fn from(fault: LinFault) -> Self {
        Fault::Rows(fault)
    }
}

impl From<FindFault> for Fault {
    ghost from_gives = { λ fault e. e ≡ Elimination fault };

    fn from(fault: FindFault) -> Self {
        Fault::Elimination(fault)
    }
}

impl From<AllocError> for Fault {
    ghost from_gives = { λ _ e. e ≡ Rows Memory };

    fn from(_: AllocError) -> Self {
        Fault::Rows(LinFault::Memory)
    }
}

impl<T: Drop> From<AllocFailed<T>> for Fault {
    ghost from_gives = { λ _ e. e ≡ Rows Memory };

    fn from(_: AllocFailed<T>) -> Self {
        Fault::Rows(LinFault::Memory)
    }
}
