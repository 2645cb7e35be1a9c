//! From the text to the commands.

ghost use Rattle.std.specs.Prelude.{◌≡◌, IsErrOf, Result, List};
ghost use Rattle.script_grammar.specs.declared.command.Command.{Command};
ghost use Rattle.command_script.specs.declared.fault.ScriptFault.{ScriptFault};
ghost use Rattle.command_script.specs.declared.fault.ScriptFault.TheVariants.{Memory};
ghost use Rattle.command_script.specs.Answers.{IsAnswerOf};

use crate::ScriptFault;
use crate::limits::limit;
use az_lin::List;
use grammar_rules::TextFault;
use script_grammar::{Command, read_text};
use std::alloc::Global;

/// What the grammar takes, within the limits.
fn read(alloc: Global, text: &[u8]) -> Result<List<Command>, ScriptFault>
    ensures { IsAnswerOf text.now result }
{
    let commands = match read_text(alloc, text) {
        Ok(commands) => commands,
        Err(TextFault::Lex(fault)) => return Err(ScriptFault::Lex(fault)),
        Err(TextFault::Syntax(place)) => return Err(ScriptFault::Syntax(place)),
        Err(TextFault::Size) => unreachable!(),
        Err(TextFault::Memory) => return Err(ScriptFault::Memory),
    };
    match limit(commands.as_slice()) {
        Some(limit) => Err(ScriptFault::Limit(limit)),
        None => Ok(commands),
    }
}

/// Reads a script.
///
/// The first of these is answered: a bad byte or a wide number; the syntax; the number of commands; the
/// number of turns in a command. No name is looked up.
pub fn read_script(alloc: Global, text: &[u8]) -> Result<List<Command>, ScriptFault>
    ensures answer { IsAnswerOf text.now result }
    // No other answer fits the text, but that memory ran out.
    ensures only { (other : Result (List Command) ScriptFault) → IsAnswerOf text.now other
        → (IsErrOf other Memory → ⊥) → (IsErrOf result Memory → ⊥) → result ≡ other }
{
    read(alloc, text)
}
