//! The commands of a text.

ghost use Rattle.script_files.specs.Commands.{script_refusal, commands_in};
ghost use Rattle.session_state.specs.Steps.{TakesAlone, IsStopFor};

use az_lin::List;
use az_text::LexFault;
use command_script::{Command, ScriptFault, read_script};
use session_state::{Refusal, Stop, TextKind, text_stop};
use std::alloc::Global;

/// Why a text that is no script stops a run.
fn unread(alloc: Global, file: &str, fault: ScriptFault) -> Stop
    ensures { IsStopFor (script_refusal file.now fault) result }
{
    match fault {
        ScriptFault::Lex(LexFault::BadByte(place)) => {
            text_stop(alloc, file, TextKind::BadByte, place)
        }
        ScriptFault::Lex(LexFault::WideNumber(place)) => {
            text_stop(alloc, file, TextKind::WideNumber, place)
        }
        ScriptFault::Syntax(place) => text_stop(alloc, file, TextKind::Syntax, place),
        ScriptFault::Limit(limit) => Stop::Refused(Refusal::Limited(limit)),
        ScriptFault::Lex(LexFault::Memory) | ScriptFault::Memory => Stop::Memory,
    }
}

/// The commands that the text of the file says.
pub fn commands_in(alloc: Global, file: &str, text: &[u8]) -> Result<List<Command>, Stop>
    ensures { TakesAlone (commands_in file.now text.now) result }
{
    match read_script(alloc, text) {
        Ok(commands) => Ok(commands),
        Err(fault) => Err(unread(alloc, file, fault)),
    }
}
