//! Why an elimination gives no result.

ghost use Rattle.std.specs.Prelude.{◌≡◌, Ok, IfErr, MatchResult};
ghost use Rattle.az_lin.specs.declared.fault.LinFault.TheVariants as lin;
ghost use Rattle.farkas_find.specs.declared.fault.FindFault.TheVariants.{Memory};

use az_lin::{Limit, LinFault};
use std::alloc::{AllocError, AllocFailed};

#[derive(Debug, Drop)]
pub enum FindFault {
    /// A product or sum of this stage leaves ±(2^127 - 1).
    Overflow(u32),
    /// A stage has more rows than the limit allows.
    Limit(Limit),
    /// Memory ran out.
    Memory,
}

impl From<AllocError> for FindFault {
    ghost from_gives = { λ _ e. e ≡ Memory };

    fn from(_: AllocError) -> Self {
        FindFault::Memory
    }
}

impl<T: Drop> From<AllocFailed<T>> for FindFault {
    ghost from_gives = { λ _ e. e ≡ Memory };

    fn from(_: AllocFailed<T>) -> Self {
        FindFault::Memory
    }
}

/// An answer of az_lin whose one fault is want of memory.
pub(crate) fn of_memory<T>(answer: Result<T, LinFault>) -> Result<T, FindFault>
    requires { IfErr answer (λ fault. fault ≡ lin.Memory) }
    ensures { MatchResult result (λ value. answer ≡ Ok value) (λ fault. fault ≡ Memory) }
{
    match answer {
        Ok(value) => Ok(value),
        Err(LinFault::Memory) => Err(FindFault::Memory),
        Err(_) => unreachable!(),
    }
}
