//! Why an operation on rows and maps gives no result.

ghost use Rattle.std.specs.Prelude.{◌≡◌};
ghost use Rattle.az_lin.specs.declared.fault.LinFault.TheVariants.{Memory};

use crate::{List, TryCopy};
use std::alloc::{AllocError, AllocFailed, Global};

#[derive(Debug, Drop)]
pub enum LinFault {
    /// An exact entry of the result lies outside ±(2^60 - 1).
    Entry,
    /// The map has no integral inverse.
    NoInverse(NoInverse),
    /// The inversion left ±(2^127 - 1).
    Overflow,
    /// Memory ran out.
    Memory,
}

/// Why a map has no integral inverse.
#[derive(Debug, Drop)]
pub enum NoInverse {
    /// A nonzero vector that the index part maps to zero.
    Kernel(List<i128>),
    /// The rational inverse of the index part, row by row, over its least common denominator.
    Rational { nums: List<i128>, den: i128 },
}

impl From<AllocError> for LinFault {
    ghost from_gives = { λ _ e. e ≡ Memory };

    fn from(_: AllocError) -> Self {
        LinFault::Memory
    }
}

impl<T: Drop> From<AllocFailed<T>> for LinFault {
    ghost from_gives = { λ _ e. e ≡ Memory };

    fn from(_: AllocFailed<T>) -> Self {
        LinFault::Memory
    }
}

impl TryCopy for NoInverse {
    fn copy(&self, alloc: Global) -> Result<Self, LinFault> {
        match self {
            NoInverse::Kernel(vector) => Ok(NoInverse::Kernel(vector.copy(alloc)?)),
            NoInverse::Rational { nums, den } => {
                let nums = nums.copy(alloc)?;
                Ok(NoInverse::Rational { nums, den: *den })
            }
        }
    }
}
