//! Why an operation on polyhedra gives no result.

ghost use Rattle.std.specs.Prelude.{◌≡◌, IfErr};
ghost use Rattle.az_poly.specs.Answers.{IsRowFault, AnswersAs};
ghost use Rattle.az_poly.specs.declared.fault.PolyFault.TheVariants.{Memory};

use az_lin::{Limit, LinFault};
use std::alloc::{AllocError, AllocFailed};

#[derive(Debug, Drop)]
pub enum PolyFault {
    /// An exact entry of the result lies outside ±(2^60 - 1).
    Entry,
    /// The result would have more parts than the limit allows.
    Limit(Limit),
    /// Memory ran out.
    Memory,
}

/// An answer about rows that finds an entry out of range, or for which memory runs out.
pub(crate) fn of_rows<T>(answer: Result<T, LinFault>) -> Result<T, PolyFault>
    requires { IfErr answer IsRowFault }
    ensures { AnswersAs answer result }
{
    match answer {
        Ok(value) => Ok(value),
        Err(LinFault::Entry) => Err(PolyFault::Entry),
        Err(LinFault::Memory) => Err(PolyFault::Memory),
        Err(_) => unreachable!(),
    }
}

impl From<AllocError> for PolyFault {
    ghost from_gives = { λ _ e. e ≡ Memory };

    fn from(_: AllocError) -> Self {
        PolyFault::Memory
    }
}

impl<T: Drop> From<AllocFailed<T>> for PolyFault {
    ghost from_gives = { λ _ e. e ≡ Memory };

    fn from(_: AllocFailed<T>) -> Self {
        PolyFault::Memory
    }
}
