//! From what was read of a text's tokens to the place in the text.

ghost use Rattle.std.specs.Prelude.{◌≡◌, ◌++◌, List, length};
ghost use Rattle.az_text.specs.declared.token.Token.{Token};
ghost use Rattle.grammar_rules.specs.TextReadings.{Places, place_of};

use crate::{ReadError, TextFault};
use az_text::Token;

/// The place in the text with so many tokens left.
fn place(text: &[u8], tokens: &[Token<'_>], remaining: usize) -> usize
    ensures { (before rest : List Token) → tokens.now ≡ before ++ rest → remaining ≡ length rest → result ≡ place_of text.now rest }
{
    match tokens.get(tokens.len().saturating_sub(remaining)) {
        Some(token) => token.from,
        None => text.len(),
    }
}

/// What was read of a text's tokens, with the place in bytes.
pub fn placed<A: Drop>(
    text: &[u8],
    tokens: &[Token<'_>],
    read: Result<A, ReadError>,
) -> Result<A, TextFault>
    ensures { Places text.now tokens.now read result }
{
    match read {
        Ok(value) => Ok(value),
        Err(ReadError::Syntax(remaining)) => {
            Err(TextFault::Syntax(place(text, tokens, remaining)))
        }
        Err(ReadError::Size) => Err(TextFault::Size),
        Err(ReadError::Memory) => Err(TextFault::Memory),
    }
}
