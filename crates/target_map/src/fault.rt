//! Why a mapping is refused.

ghost use Rattle.std.specs.Prelude.{◌≡◌};
ghost use Rattle.target_map.specs.declared.fault.MapFault.TheVariants.{Memory};

use az_ast::Reason;
use std::alloc::{AllocError, AllocFailed};

#[derive(Debug, Drop)]
pub enum MapFault {
    Reason(Reason),
    /// Memory ran out.
    Memory,
}

impl From<AllocError> for MapFault {
    ghost from_gives = { λ _ e. e ≡ Memory };

    fn from(_: AllocError) -> Self {
        MapFault::Memory
    }
}

impl<T: Drop> From<AllocFailed<T>> for MapFault {
    ghost from_gives = { λ _ e. e ≡ Memory };

    fn from(_: AllocFailed<T>) -> Self {
        MapFault::Memory
    }
}
