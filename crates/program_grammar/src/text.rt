//! The program of a text.

ghost use Rattle.std.specs.Prelude.{IfOk};
ghost use Rattle.program_grammar.specs.Readings.{IsReadingOf};
ghost use Rattle.program_grammar.specs.Written.{IsWritten};

use crate::{ProgramText, read_tokens};
use az_text::{LexFault, lex};
use grammar_rules::{TextFault, placed};
use std::alloc::Global;

/// The program of a text as it is written, or why it has none.
pub fn read_text(alloc: Global, text: &[u8]) -> Result<ProgramText, TextFault>
    ensures reading { IsReadingOf text.now result }
    ensures written { IfOk result IsWritten }
{
    let tokens = match lex(alloc, text) {
        Ok(tokens) => tokens,
        Err(LexFault::Memory) => return Err(TextFault::Memory),
        Err(fault) => return Err(TextFault::Lex(fault)),
    };
    let read = read_tokens(alloc, tokens.as_slice());
    placed(text, tokens.as_slice(), read)
}
