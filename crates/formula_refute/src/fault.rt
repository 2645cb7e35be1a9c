//! Why a formula is not answered.

ghost use Rattle.std.specs.Prelude.{◌≡◌};
ghost use Rattle.formula_refute.specs.declared.fault.RefuteFault.TheVariants.{Memory};

use az_lin::Limit;
use std::alloc::{AllocError, AllocFailed};

#[derive(Debug, Drop)]
pub enum RefuteFault {
    /// The elimination of this case leaves ±(2^127 - 1), and each case before it is refuted.
    Overflow { case_no: u32 },
    /// An entry of a negated row lies outside ±(2^60 - 1).
    Entry,
    /// There are more cases, or a case has more rows on the way, than the limit allows.
    Limit(Limit),
    /// Memory ran out.
    Memory,
}

impl From<AllocError> for RefuteFault {
    ghost from_gives = { λ _ e. e ≡ Memory };

    fn from(_: AllocError) -> Self {
        RefuteFault::Memory
    }
}

impl<T: Drop> From<AllocFailed<T>> for RefuteFault {
    ghost from_gives = { λ _ e. e ≡ Memory };

    fn from(_: AllocFailed<T>) -> Self {
        RefuteFault::Memory
    }
}
