//! The commands that read, check and show a program.

ghost use Rattle.std.specs.Prelude.{◌≡◌, OnErr};
ghost use Rattle.program_commands.specs.Commands.{load_program, check_program, show_program};
ghost use Rattle.session_state.specs.Endings.{IsLeft};
ghost use Rattle.session_state.specs.Session.{IsSound, carried};
ghost use Rattle.session_state.specs.Steps.{Takes, TakesAlone};

use crate::read_alphabets;
use alphabets_show::ShowFault;
use az_desk::Desk;
use az_lin::List;
use session_state::{Session, Stop, fresh, opened};
use std::alloc::Global;

/// Reads a certified program into the session, in the place of all that it had.
pub fn load_program<D: Desk>(
    alloc: Global,
    desk: &mut D,
    session: &mut Session,
    file: &str,
) -> Result<List<u8>, Stop>
    requires sound { IsSound session.old }
    ensures answer { Takes (load_program (D.seen desk.old).files file.now) (carried session.new result) }
    ensures left { IsLeft (D.seen desk.old) result (D.seen desk.new) }
    ensures kept { OnErr result (session.new ≡ session.old) }
    ensures sound { IsSound session.new }
{
    let program = read_alphabets(alloc, desk, file)?;
    let loaded = fresh(alloc, program)?;
    *session = Some(loaded);
    Ok(List::new(alloc))
}

/// A program of a session is certified already.
pub fn check_program(alloc: Global, session: &Session) -> Result<List<u8>, Stop>
    ensures { TakesAlone (check_program session.now) (carried session.now result) }
{
    opened(session)?;
    Ok(List::new(alloc))
}

/// The text of the program as it stands.
pub fn show_program(alloc: Global, session: &Session) -> Result<List<u8>, Stop>
    ensures { TakesAlone (show_program session.now) (carried session.now result) }
{
    let loaded = opened(session)?;
    match alphabets_show::show_program(alloc, loaded.current.program()) {
        Ok(text) => Ok(text),
        Err(ShowFault::Memory) => Err(Stop::Memory),
    }
}
