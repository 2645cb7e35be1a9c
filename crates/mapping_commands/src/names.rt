//! Variables by their names.

ghost use Rattle.std.specs.Prelude.{◌≡◌, ◌<◌, All, IfOk, IfSome, length, position};
ghost use Rattle.std.specs.Str.{bytes_eq};
ghost use Rattle.mapping_commands.specs.Names.{place_of, variable, variables};
ghost use Rattle.session_state.specs.Steps.{TakesAlone};

use crate::stops::refused;
use az_ast::{Program, Reason, Variable};
use az_lin::{List, Name};
use session_state::{Stop, name};
use std::alloc::Global;

fn place_of(variables: &[Variable], name: &str) -> Option<usize>
    ensures place { result ≡ position (λ variable. bytes_eq variable.name name.now) variables.now }
    ensures within { IfSome result (λ place. place < length variables.now) }
{
    variables
        .iter()
        .position(|variable| variable.name.as_str() == name)
}

/// The number of the variable of that name.
pub(crate) fn variable(alloc: Global, program: &Program, sought: &str) -> Result<u32, Stop>
    ensures answer { TakesAlone (variable program.now sought.now) result }
    ensures declared { IfOk result (λ number. number < length program.now.variables) }
{
    match place_of(program.variables(), sought) {
        Some(place) => Ok(place as u32),
        None => Err(refused(Reason::Unknown(name(alloc, sought)?))),
    }
}

/// The numbers of the variables of those names.
pub(crate) fn variables(alloc: Global, program: &Program, names: &[Name]) -> Result<List<u32>, Stop>
    ensures answer { TakesAlone (variables program.now names.now) result }
    ensures declared { IfOk result (All (λ number. number < length program.now.variables)) }
{
    let mut numbers = Vec::new(alloc);
    'names: for name in names {
        numbers.push(variable(alloc, program, name.as_str())?)?;
    }
    Ok(List::from_vec(numbers))
}
