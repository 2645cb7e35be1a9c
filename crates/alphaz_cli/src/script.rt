//! A script from a file.

ghost use Rattle.alphaz_cli.specs.Scripts.{tasks_in, script};
ghost use Rattle.script_files.specs.Places.{HasTokens};
ghost use Rattle.session_state.specs.Endings.{IsLeft};
ghost use Rattle.session_state.specs.Steps.{Takes, TakesAlone};

use crate::task::{Task, task_of};
use az_desk::Desk;
use az_lin::List;
use command_script::Command;
use script_files::{commands_in, syntax_stop};
use session_state::{Stop, text_of};
use std::alloc::Global;

/// The tasks of the commands, where each is carried out today.
fn tasks_in(
    alloc: Global,
    file: &str,
    text: &[u8],
    commands: List<Command>,
) -> Result<List<Task>, Stop>
    requires { HasTokens text.now }
    ensures { TakesAlone (tasks_in file.now text.now commands) result }
{
    let mut tasks = Vec::with_capacity(alloc, commands.len())?;
    'commands: for command in commands.into_vec().into_iter() {
        match task_of(command) {
            Some(task) => tasks.push(task)?,
            None => return Err(syntax_stop(alloc, file, text, tasks.len())),
        }
    }
    Ok(List::from_vec(tasks))
}

/// Reads the script in the file.
pub(crate) fn script<D: Desk>(alloc: Global, desk: &mut D, file: &str) -> Result<List<Task>, Stop>
    ensures answer { Takes (script (D.seen desk.old).files file.now) result }
    ensures left { IsLeft (D.seen desk.old) result (D.seen desk.new) }
{
    let text = text_of(alloc, desk, file)?;
    let commands = commands_in(alloc, file, text.as_slice())?;
    tasks_in(alloc, file, text.as_slice(), commands)
}
