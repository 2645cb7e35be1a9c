//! The commands, each carried out on the session.

ghost use Rattle.std.specs.Prelude.{◌≡◌, OnErr};
ghost use Rattle.mapping_commands.specs.Commands.{set_dimension_kinds, set_space_time_map, set_memory_map, set_statement_order};
ghost use Rattle.session_state.specs.Session.{IsSound, carried};
ghost use Rattle.session_state.specs.Steps.{TakesAlone};

use crate::parts::{with_kinds, with_order, with_storage, with_time};
use az_lin::{List, Name};
use command_script::{KindText, MapText};
use session_state::{Session, Stop, no_program, remap};
use std::alloc::Global;

/// Sets the kinds of the dimensions of time, and takes the space-time maps away.
pub fn set_dimension_kinds(
    alloc: Global,
    session: &mut Session,
    kinds: &[KindText],
) -> Result<List<u8>, Stop>
    requires sound { IsSound session.old }
    ensures answer { TakesAlone (set_dimension_kinds session.old kinds.now) (carried session.new result) }
    ensures kept { OnErr result (session.new ≡ session.old) }
    ensures sound { IsSound session.new }
{
    let Some(loaded) = session else {
        return Err(no_program());
    };
    let mapping = with_kinds(alloc, &loaded.mapping, kinds)?;
    remap(loaded, mapping);
    Ok(List::new(alloc))
}

/// Sets when the instances of a variable are carried out.
pub fn set_space_time_map(
    alloc: Global,
    session: &mut Session,
    variable: &str,
    map: &MapText,
) -> Result<List<u8>, Stop>
    requires sound { IsSound session.old }
    ensures answer { TakesAlone (set_space_time_map session.old variable.now map.now) (carried session.new result) }
    ensures kept { OnErr result (session.new ≡ session.old) }
    ensures sound { IsSound session.new }
{
    let Some(loaded) = session else {
        return Err(no_program());
    };
    let program = loaded.current.program();
    let mapping = with_time(alloc, program, &loaded.mapping, variable, map)?;
    remap(loaded, mapping);
    Ok(List::new(alloc))
}

/// Sets where the instances of a variable are kept.
pub fn set_memory_map(
    alloc: Global,
    session: &mut Session,
    variable: &str,
    space: &str,
    map: &MapText,
    factors: &[i128],
) -> Result<List<u8>, Stop>
    requires sound { IsSound session.old }
    ensures answer { TakesAlone (set_memory_map session.old variable.now space.now map.now factors.now) (carried session.new result) }
    ensures kept { OnErr result (session.new ≡ session.old) }
    ensures sound { IsSound session.new }
{
    let Some(loaded) = session else {
        return Err(no_program());
    };
    let program = loaded.current.program();
    let mapping = with_storage(
        alloc,
        program,
        &loaded.mapping,
        variable,
        space,
        map,
        factors,
    )?;
    remap(loaded, mapping);
    Ok(List::new(alloc))
}

/// Sets the order of the statements that are carried out at one time.
pub fn set_statement_order(
    alloc: Global,
    session: &mut Session,
    variables: &[Name],
) -> Result<List<u8>, Stop>
    requires sound { IsSound session.old }
    ensures answer { TakesAlone (set_statement_order session.old variables.now) (carried session.new result) }
    ensures kept { OnErr result (session.new ≡ session.old) }
    ensures sound { IsSound session.new }
{
    let Some(loaded) = session else {
        return Err(no_program());
    };
    let program = loaded.current.program();
    let mapping = with_order(alloc, program, &loaded.mapping, variables)?;
    remap(loaded, mapping);
    Ok(List::new(alloc))
}
