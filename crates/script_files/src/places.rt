//! Where the commands of a text begin.

ghost use Rattle.std.specs.Prelude.{◌≡◌};
ghost use Rattle.grammar_rules.specs.TextReadings.{place_of};
ghost use Rattle.script_files.specs.Places.{is_semicolon, behind, HasTokens, IsSyntaxStop};

use az_text::{LexFault, MarkKind, Token, TokenKind, lex};
use session_state::{Stop, TextKind, text_stop};
use std::alloc::Global;

fn is_semicolon(kind: &TokenKind<'_>) -> bool
    ensures { result ≡ is_semicolon kind.now }
{
    matches!(kind, TokenKind::Mark(MarkKind::Semicolon))
}

/// Where the command begins before which so many stand.
fn place_of(text: &[u8], tokens: &[Token<'_>], number: usize) -> usize
    ensures { result ≡ place_of text.now (behind tokens.now number) }
{
    let mut left = number;
    for token in tokens {
        if left == 0 {
            return token.from;
        }
        if is_semicolon(&token.kind) {
            left -= 1;
        }
    }
    text.len()
}

/// Why a run stops that can't go on at the first word of a command: the one before which so many stand.
pub fn syntax_stop(alloc: Global, file: &str, text: &[u8], number: usize) -> Stop
    requires { HasTokens text.now }
    ensures { IsSyntaxStop file.now text.now number result }
{
    match lex(alloc, text) {
        Ok(tokens) => {
            let place = place_of(text, tokens.as_slice(), number);
            text_stop(alloc, file, TextKind::Syntax, place)
        }
        Err(LexFault::Memory) => Stop::Memory,
        Err(_) => unreachable!(),
    }
}
