//! What the setting calls look at before they set anything.

ghost use Rattle.std.specs.Prelude.{◌≡◌, ◌==◌, ◌<◌, ◌≤◌, length, nat_lt, IfOk, IfErr, find, []};
ghost use Rattle.std.specs.List.{list_any};
ghost use Rattle.az_ast.specs.Shapes.{IsProgram, is_input};
ghost use Rattle.target_map.specs.Kinds.{most_size};
ghost use Rattle.target_map.specs.Refusals.{name_of, is_unwritten, repeated};
ghost use Rattle.target_map.specs.Settings.{width_of};
ghost use Rattle.target_map.specs.declared.fault.MapFault.TheVariants.{Memory};

use crate::MapFault;
use crate::kind::MOST_SIZE;
use az_ast::{Program, Role};
use az_lin::{LinFault, Name, TryCopy};
use std::alloc::Global;

/// Lets a caller know that the program keeps the rules.
pub(crate) fn rules(program: &Program)
    ensures { IsProgram program.now }
{
    let _ = program.variables();
}

/// How many variables there are.
pub(crate) fn variable_count(program: &Program) -> u32
    ensures value { result ≡ length program.now.variables }
    ensures few { result ≤ 256 }
{
    program.variables().len() as u32
}

pub(crate) fn is_input(role: Role) -> bool
    ensures { result ≡ is_input role }
{
    match role {
        Role::Input => true,
        Role::Output | Role::Local => false,
    }
}

/// Whether the variable is no output or local.
pub(crate) fn is_unwritten(program: &Program, variable: u32) -> bool
    ensures { result ≡ is_unwritten program.now variable }
{
    match program.variables().get(variable as usize) {
        Some(variable) => is_input(variable.role),
        None => true,
    }
}

/// The columns of the variable's points.
pub(crate) fn width_of(program: &Program, variable: u32) -> usize
    ensures { result ≡ width_of program.now variable }
{
    match program.variables().get(variable as usize) {
        Some(variable) => variable.domain.width(),
        None => 0,
    }
}

pub(crate) fn copied_name(alloc: Global, name: &Name) -> Result<Name, MapFault>
    ensures ok { IfOk result (λ copied. copied ≡ name.now) }
    ensures cause { IfErr result (λ fault. fault ≡ Memory) }
{
    match name.copy(alloc) {
        Ok(copied) => Ok(copied),
        Err(LinFault::Memory) => Err(MapFault::Memory),
        Err(_) => unreachable!(),
    }
}

/// The name of a declared variable.
pub(crate) fn name_of(alloc: Global, program: &Program, variable: u32) -> Result<Name, MapFault>
    requires { variable < length program.now.variables }
    ensures ok { IfOk result (λ name. name ≡ name_of program.now variable) }
    ensures cause { IfErr result (λ fault. fault ≡ Memory) }
{
    copied_name(alloc, &program.variables()[variable as usize].name)
}

/// Whether a factor is above 2^20.
pub(crate) fn some_great(factors: &[u32]) -> bool
    ensures { result ≡ list_any (λ factor. nat_lt most_size factor) factors.now }
{
    factors.iter().any(|factor| MOST_SIZE < *factor)
}

fn is_among(numbers: &[u32], number: u32) -> bool
    ensures { result ≡ list_any (λ other. other == number) numbers.now }
{
    numbers.iter().any(|other| *other == number)
}

/// The first number that stands in the list before.
pub(crate) fn repeated(statements: &[u32]) -> Option<u32>
    ensures { result ≡ repeated [] statements.now }
{
    'statements: for place in 0..statements.len() {
        let number = statements[place];
        if is_among(&statements[..place], number) {
            return Some(number);
        }
    }
    None
}

/// The first statement of an input.
pub(crate) fn first_unwritten(program: &Program, statements: &[u32]) -> Option<u32>
    ensures { result ≡ find (is_unwritten program.now) statements.now }
{
    statements
        .iter()
        .copied()
        .find(|number| is_unwritten(program, *number))
}
