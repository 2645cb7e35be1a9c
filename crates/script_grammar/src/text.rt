//! The commands of a text.

ghost use Rattle.script_grammar.specs.Readings.{IsReadingOf};

use crate::{Command, read_tokens};
use az_lin::List;
use az_text::{LexFault, lex};
use grammar_rules::{TextFault, placed};
use std::alloc::Global;

/// The commands of a text, or why it is no script.
pub fn read_text(alloc: Global, text: &[u8]) -> Result<List<Command>, TextFault>
    ensures reading { IsReadingOf text.now result }
{
    let tokens = match lex(alloc, text) {
        Ok(tokens) => tokens,
        Err(LexFault::Memory) => return Err(TextFault::Memory),
        Err(fault) => return Err(TextFault::Lex(fault)),
    };
    let read = read_tokens(alloc, tokens.as_slice());
    placed(text, tokens.as_slice(), read)
}
