//! Why a reader has no value, and why a text has none.

ghost use Rattle.std.specs.Prelude.{◌≡◌};
ghost use Rattle.grammar_rules.specs.declared.fault.ReadError.TheVariants.{Memory};

use az_text::LexFault;
use std::alloc::{AllocError, AllocFailed};

#[derive(Debug, Drop)]
pub enum ReadError {
    /// The first token that can't go on is the first of this many tokens; with none left, more would
    /// have to follow.
    Syntax(usize),
    /// The budget is exceeded.
    Size,
    /// Memory ran out.
    Memory,
}

impl From<AllocError> for ReadError {
    ghost from_gives = { λ _ e. e ≡ Memory };

    fn from(_: AllocError) -> Self {
        ReadError::Memory
    }
}

impl<T: Drop> From<AllocFailed<T>> for ReadError {
    ghost from_gives = { λ _ e. e ≡ Memory };

    fn from(_: AllocFailed<T>) -> Self {
        ReadError::Memory
    }
}

/// Why a text is no sentence of a grammar.
#[derive(Debug, Drop)]
pub enum TextFault {
    /// The first fault of the tokens.
    Lex(LexFault),
    /// The first byte of the first token that can't go on, or the text's length where more would have
    /// to follow.
    Syntax(usize),
    /// The limit of weight is exceeded.
    Size,
    /// Memory ran out.
    Memory,
}
