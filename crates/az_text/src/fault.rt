//! Why a text has no tokens.

ghost use Rattle.std.specs.Prelude.{◌≡◌};
ghost use Rattle.az_text.specs.declared.fault.LexFault.TheVariants.{Memory};

use std::alloc::{AllocError, AllocFailed};

#[derive(Debug, Drop)]
pub enum LexFault {
    /// The place of the first byte at which no token begins. For an unclosed quoted text it is the
    /// place of the quote.
    BadByte(usize),
    /// The place of the first digit of a number above 2^127 - 1.
    WideNumber(usize),
    /// Memory ran out.
    Memory,
}

impl From<AllocError> for LexFault {
    ghost from_gives = { λ _ e. e ≡ Memory };

    fn from(_: AllocError) -> Self {
        LexFault::Memory
    }
}

impl<T: Drop> From<AllocFailed<T>> for LexFault {
    ghost from_gives = { λ _ e. e ≡ Memory };

    fn from(_: AllocFailed<T>) -> Self {
        LexFault::Memory
    }
}
