//! The commands of a script that bring data to a program.

ghost use Rattle.std.specs.Prelude.{◌≡◌, IfOk, OnErr};
ghost use Rattle.data_commands.specs.Commands.{set_number, load_table};
ghost use Rattle.session_state.specs.Endings.{IsLeft};
ghost use Rattle.session_state.specs.Session.{IsSound, carried};
ghost use Rattle.session_state.specs.Settings.{AreSettings, set_parameter};
ghost use Rattle.session_state.specs.Steps.{Takes, TakesAlone};

use crate::read_input;
use az_ast::{Inputs, Program};
use az_desk::Desk;
use az_lin::List;
use session_state::{Session, Stop, no_program, set_parameter};
use std::alloc::Global;

/// The numbers with this one in its place.
fn with_number(
    alloc: Global,
    program: &Program,
    settings: &[Option<i128>],
    name: &str,
    number: i128,
) -> Result<List<Option<i128>>, Stop>
    requires { AreSettings program.now settings.now }
    ensures answer { TakesAlone (set_parameter program.now settings.now name.now number) result }
    ensures sound { IfOk result (AreSettings program.now) }
{
    let mut numbers = Vec::from_slice(alloc, settings)?;
    set_parameter(alloc, program, &mut numbers, name, number)?;
    Ok(List::from_vec(numbers))
}

/// Sets the number of a parameter, and gives up the tables that were read.
pub fn set_number(
    alloc: Global,
    session: &mut Session,
    name: &str,
    number: i128,
) -> Result<List<u8>, Stop>
    requires sound { IsSound session.old }
    ensures answer { TakesAlone (set_number session.old name.now number) (carried session.new result) }
    ensures kept { OnErr result (session.new ≡ session.old) }
    ensures sound { IsSound session.new }
{
    let Some(loaded) = session else {
        return Err(no_program());
    };
    let settings = with_number(
        alloc,
        loaded.current.program(),
        loaded.settings.as_slice(),
        name,
        number,
    )?;
    loaded.settings = settings;
    loaded.inputs = Inputs::new(alloc);
    Ok(List::new(alloc))
}

/// Reads the table of an input from a file.
pub fn load_table<D: Desk>(
    alloc: Global,
    desk: &mut D,
    session: &mut Session,
    input: &str,
    file: &str,
) -> Result<List<u8>, Stop>
    requires sound { IsSound session.old }
    ensures answer { Takes (load_table (D.seen desk.old).files session.old input.now file.now) (carried session.new result) }
    ensures left { IsLeft (D.seen desk.old) result (D.seen desk.new) }
    ensures kept { OnErr result (session.new ≡ session.old) }
    ensures sound { IsSound session.new }
{
    let Some(loaded) = session else {
        return Err(no_program());
    };
    read_input(
        alloc,
        desk,
        loaded.current.program(),
        loaded.settings.as_slice(),
        &mut loaded.inputs,
        input,
        file,
    )?;
    Ok(List::new(alloc))
}
