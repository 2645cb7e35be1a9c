//! Why a text is not read as a script.

use az_lin::Limit;
use az_text::LexFault;

#[derive(Debug, Drop)]
pub enum ScriptFault {
    /// The first byte at which no token begins, or a number that is too wide.
    Lex(LexFault),
    /// The first byte of the first token that can't go on, or the text's length where more would have
    /// to follow.
    Syntax(usize),
    /// More than 256 commands, or else more than 65,536 turns in a command.
    Limit(Limit),
    /// Memory ran out.
    Memory,
}
