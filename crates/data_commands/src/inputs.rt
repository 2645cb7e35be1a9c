//! The tables of a program's inputs.

ghost use Rattle.std.specs.Prelude.{◌≡◌, ◌&&◌, ◌<◌, IfErr, IfOk, IfSome, OnErr, OnOk, length, position};
ghost use Rattle.std.specs.FinMap.{insert};
ghost use Rattle.std.specs.Str.{bytes_eq};
ghost use Rattle.az_ast.specs.Shapes.{is_input};
ghost use Rattle.data_commands.specs.Tables.{input, read_input};
ghost use Rattle.session_state.specs.Endings.{IsLeft};
ghost use Rattle.session_state.specs.Settings.{AreSettings};
ghost use Rattle.session_state.specs.Steps.{Takes, TakesAlone, with_value};
ghost use Rattle.session_state.specs.declared.stop.Stop.TheVariants.{Memory};

use crate::tables::table_of;
use az_ast::{Inputs, Program, Reason, Role, Table, Variable};
use az_desk::Desk;
use session_state::{Refusal, Stop, name, text_of};
use std::alloc::Global;

pub(crate) fn is_input(role: Role) -> bool
    ensures { result ≡ is_input role }
{
    match role {
        Role::Input => true,
        Role::Output | Role::Local => false,
    }
}

fn place_of(variables: &[Variable], name: &str) -> Option<usize>
    ensures place { result ≡ position (λ variable. bytes_eq variable.name name.now && is_input variable.role) variables.now }
    ensures within { IfSome result (λ place. place < length variables.now) }
{
    variables.iter().position(|variable| variable.name.as_str() == name && is_input(variable.role))
}

/// The number of the input of that name.
fn input(alloc: Global, program: &Program, sought: &str) -> Result<usize, Stop>
    ensures answer { TakesAlone (input program.now sought.now) result }
    ensures within { IfOk result (λ number. number < length program.now.variables) }
{
    match place_of(program.variables(), sought) {
        Some(number) => Ok(number),
        None => {
            let unknown = Reason::Unknown(name(alloc, sought)?);
            Err(Stop::Refused(Refusal::Command(unknown)))
        }
    }
}

/// Puts a table in place of an earlier one.
fn put(inputs: &mut Inputs, program: &Program, number: usize, table: Table) -> Result<(), Stop>
    requires { number < length program.now.variables }
    ensures ok { OnOk result (inputs.new ≡ insert inputs.old number table) }
    ensures kept { OnErr result (inputs.new ≡ inputs.old) }
    ensures cause { IfErr result (λ stop. stop ≡ Memory) }
{
    let _variables = program.variables();
    match inputs.set(number as u32, table) {
        Ok(()) => Ok(()),
        Err(_) => Err(Stop::Memory),
    }
}

/// Reads the table of the input of that name from a file, in place of an earlier one.
pub fn read_input<D: Desk>(
    alloc: Global,
    desk: &mut D,
    program: &Program,
    settings: &[Option<i128>],
    inputs: &mut Inputs,
    name: &str,
    file: &str,
) -> Result<(), Stop>
    requires { AreSettings program.now settings.now }
    ensures answer { Takes (read_input program.now (D.seen desk.old).files settings.now inputs.old name.now file.now) (with_value inputs.new result) }
    ensures left { IsLeft (D.seen desk.old) result (D.seen desk.new) }
    ensures kept { OnErr result (inputs.new ≡ inputs.old) }
{
    let number = input(alloc, program, name)?;
    let text = text_of(alloc, desk, file)?;
    let table = table_of(alloc, program, settings, number, name, text.as_slice())?;
    put(inputs, program, number, table)
}
