//! Variables by their names.

ghost use Rattle.std.specs.Prelude.{◌≡◌, ◌<◌, ◌≤◌, ◌⊎◌, length, position, IfOk, IfErr, IfSome};
ghost use Rattle.az_ast.specs.declared.reason.Reason.TheVariants.{Unknown};
ghost use Rattle.az_ast.specs.Shapes.{IsProgram};
ghost use Rattle.rewriting.specs.Named.{number_of, name_of, is_local, is_read_by};
ghost use Rattle.rewriting.specs.declared.fault.ChangeFault.TheVariants as change;
ghost use Rattle.std.specs.Str.{bytes_eq};

use crate::{ChangeFault, reads};
use az_ast::{Program, Reason, Role, Variable};
use az_lin::{LinFault, Name, TryCopy};
use std::alloc::Global;

/// The place of the variable with the name.
fn place_of(variables: &[Variable], name: &Name) -> Option<usize>
    ensures place { result ≡ position (λ variable. bytes_eq variable.name name.now) variables.now }
    ensures within { IfSome result (λ place. place < length variables.now) }
{
    variables
        .iter()
        .position(|variable| variable.name.as_str() == name.as_str())
}

/// The number of the variable with the name.
pub fn number_of(program: &Program, name: &Name) -> Option<u32>
    ensures value { result ≡ number_of program.now name.now }
    ensures declared { IfSome result (λ x. x < length program.now.variables) }
{
    let _ = variable_count(program);
    match place_of(program.variables(), name) {
        Some(place) => Some(place as u32),
        None => None,
    }
}

/// The name of a declared variable.
pub fn name_of(alloc: Global, program: &Program, x: u32) -> Result<Name, ChangeFault>
    requires { x < length program.now.variables }
    ensures ok { IfOk result (λ name. name ≡ name_of program.now x) }
    ensures cause { IfErr result (λ fault. fault ≡ change.Memory) }
{
    let name = program.variables()[x as usize].name.copy(alloc)?;
    Ok(name)
}

/// The refusal of a name that is no variable.
pub fn unknown(alloc: Global, name: &Name) -> ChangeFault
    ensures { (result ≡ change.Reason (Unknown name.now)) ⊎ (result ≡ change.Memory) }
{
    match name.copy(alloc) {
        Ok(name) => ChangeFault::Reason(Reason::Unknown(name)),
        Err(_) => ChangeFault::Memory,
    }
}

/// Whether the variable is a local.
pub fn is_local(program: &Program, x: u32) -> bool
    ensures { result ≡ is_local program.now x }
{
    match program.variables().get(x as usize) {
        Some(variable) => match variable.role {
            Role::Input | Role::Output => false,
            Role::Local => true,
        },
        None => false,
    }
}

/// Whether the equation of `y` has an access to `x`.
pub fn is_read_by(program: &Program, x: u32, y: u32) -> bool
    requires { y < length program.now.variables }
    ensures { result ≡ is_read_by program.now x y }
{
    match program.equation(y) {
        Some(equation) => reads(x, &equation.body),
        None => false,
    }
}

/// How many variables there are.
pub fn variable_count(program: &Program) -> u32
    ensures value { result ≡ length program.now.variables }
    ensures few { result ≤ 256 }
{
    program.variables().len() as u32
}

/// Lets a caller know that the program keeps the rules.
pub fn rules(program: &Program)
    ensures { IsProgram program.now }
{
    let _ = program.variables();
}
