//! A local under other coordinates, by a map as it is written.

ghost use Rattle.std.specs.Prelude.{◌≡◌, ◌<◌, Some, Err, length};
ghost use Rattle.az_ast.specs.Shapes.{IsProgram};
ghost use Rattle.command_script.specs.Resolved.{Resolves};
ghost use Rattle.command_script.specs.declared.resolution.ResolveFault.TheVariants.{Entry};
ghost use Rattle.rewriting.specs.Named.{number_of};
ghost use Rattle.session_state.specs.Steps.{TakesAlone};
ghost use Rattle.rewrite_commands.specs.Changes.{basis_at, rebasing};

use crate::stops::unchanged;
use az_ast::{Checked, Program, Reason};
use az_lin::Name;
use change_basis::{change_basis, size_refusal};
use command_script::{MapText, ResolveFault, resolve_map};
use rewriting::{number_of, rules, unknown};
use session_state::{Refusal, Stop};
use std::alloc::Global;

/// Why a map with an entry out of range stops the command: what its size is refused for goes first.
fn out_of_range(alloc: Global, program: &Program, target: u32, map: &MapText) -> Stop
    requires rules { IsProgram program.now }
    requires declared { target < length program.now.variables }
    requires out { Resolves program.now.params map.now (Err Entry) }
    ensures { TakesAlone (basis_at map.now program.now target) (Err result) }
{
    let indices = map.indices.as_slice();
    let width = program.params().len() + indices.len();
    let found = match size_refusal(alloc, program, target, width, map.rows.len()) {
        Ok(found) => found,
        Err(fault) => return unchanged(alloc, program, fault),
    };
    match found {
        Some(reason) => Stop::Refused(Refusal::Command(reason)),
        None => Stop::Refused(Refusal::Command(Reason::Entry)),
    }
}

/// Why a map as written that means none stops the command.
fn unresolved(
    alloc: Global,
    program: &Program,
    target: u32,
    map: &MapText,
    fault: ResolveFault,
) -> Stop
    requires rules { IsProgram program.now }
    requires declared { target < length program.now.variables }
    requires unresolved { Resolves program.now.params map.now (Err fault) }
    ensures { TakesAlone (basis_at map.now program.now target) (Err result) }
{
    match fault {
        ResolveFault::Unknown(name) => Stop::Refused(Refusal::Command(Reason::Unknown(name))),
        ResolveFault::Twice(name) => Stop::Refused(Refusal::Command(Reason::Twice(name))),
        ResolveFault::Entry => out_of_range(alloc, program, target, map),
        ResolveFault::Memory => Stop::Memory,
    }
}

/// The same for the variable with the number and the name.
fn moved(
    alloc: Global,
    checked: &Checked,
    target: u32,
    name: &Name,
    map: &MapText,
) -> Result<Checked, Stop>
    requires rules { IsProgram checked.now }
    requires declared { target < length checked.now.variables }
    requires named { number_of checked.now name.now ≡ Some target }
    ensures { TakesAlone (basis_at map.now checked.now target) result }
{
    let program = checked.program();
    let basis = match resolve_map(alloc, map, program.params()) {
        Ok(basis) => basis,
        Err(fault) => return Err(unresolved(alloc, program, target, map, fault)),
    };
    match change_basis(alloc, checked, name, &basis) {
        Ok(changed) => {
            let _ = changed.program();
            Ok(changed)
        }
        Err(fault) => Err(unchanged(alloc, program, fault)),
    }
}

pub(crate) fn rebased(
    alloc: Global,
    checked: &Checked,
    name: &Name,
    map: &MapText,
) -> Result<Checked, Stop>
    ensures { TakesAlone (rebasing name.now map.now checked.now) result }
{
    let program = checked.program();
    rules(program);
    match number_of(program, name) {
        Some(target) => moved(alloc, checked, target, name, map),
        None => Err(unchanged(alloc, program, unknown(alloc, name))),
    }
}
