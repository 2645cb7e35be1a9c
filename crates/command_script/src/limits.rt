//! The limits on what was read.

ghost use Rattle.std.specs.Prelude.{◌≡◌};
ghost use Rattle.std.specs.List.{list_any};
ghost use Rattle.command_script.specs.Limits.{has_many_turns, limit_of};

use az_lin::Limit;
use script_grammar::Command;

const MOST_COMMANDS: usize = 256;

const MOST_TURNS: usize = 65_536;

fn has_many_turns(command: &Command) -> bool
    ensures { result ≡ has_many_turns command.now }
{
    match command {
        Command::Interleave { turns, .. } => MOST_TURNS < turns.len(),
        _ => false,
    }
}

fn some_has_many_turns(commands: &[Command]) -> bool
    ensures { result ≡ list_any has_many_turns commands.now }
{
    commands.iter().any(has_many_turns)
}

/// The first limit that the commands exceed.
pub(crate) fn limit(commands: &[Command]) -> Option<Limit>
    ensures { result ≡ limit_of commands.now }
{
    if MOST_COMMANDS < commands.len() {
        return Some(Limit::Commands);
    }
    if some_has_many_turns(commands) {
        return Some(Limit::Turns);
    }
    None
}
