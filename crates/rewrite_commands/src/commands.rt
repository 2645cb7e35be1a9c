//! The commands that change the program.

ghost use Rattle.std.specs.Prelude.{◌≡◌, OnErr};
ghost use Rattle.session_state.specs.Session.{IsSound, carried};
ghost use Rattle.session_state.specs.Steps.{TakesAlone};
ghost use Rattle.rewrite_commands.specs.Commands.{change_basis, inline, remove_unused};

use crate::basis::rebased;
use crate::inlining::inlined;
use crate::removal::without;
use az_lin::{List, Name};
use command_script::MapText;
use session_state::{Session, Stop, change, no_program};
use std::alloc::Global;

/// The local's point z goes where the map leads it.
pub fn change_basis(
    alloc: Global,
    session: &mut Session,
    name: &Name,
    map: &MapText,
) -> Result<List<u8>, Stop>
    requires sound { IsSound session.old }
    ensures answer { TakesAlone (change_basis session.old name.now map.now) (carried session.new result) }
    ensures kept { OnErr result (session.new ≡ session.old) }
    ensures sound { IsSound session.new }
{
    let Some(loaded) = session else {
        return Err(no_program());
    };
    let changed = rebased(alloc, &loaded.current, name, map)?;
    change(alloc, loaded, changed);
    Ok(List::new(alloc))
}

/// The target's body goes in where the other's equation reads it.
pub fn inline(
    alloc: Global,
    session: &mut Session,
    into: &Name,
    target: &Name,
) -> Result<List<u8>, Stop>
    requires sound { IsSound session.old }
    ensures answer { TakesAlone (inline session.old into.now target.now) (carried session.new result) }
    ensures kept { OnErr result (session.new ≡ session.old) }
    ensures sound { IsSound session.new }
{
    let Some(loaded) = session else {
        return Err(no_program());
    };
    let changed = inlined(alloc, &loaded.current, into, target)?;
    change(alloc, loaded, changed);
    Ok(List::new(alloc))
}

/// The local is left out, which no other equation reads.
pub fn remove_unused(alloc: Global, session: &mut Session, name: &Name) -> Result<List<u8>, Stop>
    requires sound { IsSound session.old }
    ensures answer { TakesAlone (remove_unused session.old name.now) (carried session.new result) }
    ensures kept { OnErr result (session.new ≡ session.old) }
    ensures sound { IsSound session.new }
{
    let Some(loaded) = session else {
        return Err(no_program());
    };
    let changed = without(alloc, &loaded.current, name)?;
    change(alloc, loaded, changed);
    Ok(List::new(alloc))
}
