//! The reads of an equation.

ghost use Rattle.std.specs.Prelude.{◌≡◌, map, IfOk, filter_map, ◌++◌, IsTrue, not};
ghost use Rattle.az_ast.specs.Shapes.{of_variable, is_input};
ghost use Rattle.expr_places.specs.Lent.{place_of, read_of};
ghost use Rattle.expr_places.specs.Reads.{read_at};

use crate::{Part, Place, Scope};
use az_ast::{Role, Variable};
use az_lin::Map;
use std::alloc::{AllocError, Global};

/// An access to an output or local.
#[derive(Debug, Drop)]
pub struct Read<'a> {
    pub variable: u32,
    pub map: &'a Map,
    pub scope: Scope<'a>,
}

/// The reads among the places, in order.
pub fn reads<'a>(
    alloc: Global,
    variables: &[Variable],
    places: &[Place<'a>],
) -> Result<Vec<Read<'a>>, AllocError>
    ensures { IfOk result (λ found. map read_of found.items ≡ filter_map (read_at variables.now) (map place_of places.now)) }
{
    let mut found = Vec::new(alloc);
    for place in places {
        if let Part::Access(variable, map) = place.part
            && is_read(variables, variable)
        {
            let scope = place.scope.copy(alloc)?;
            found.push(Read {
                variable,
                map,
                scope,
            })?;
        }
    }
    Ok(found)
}

/// Whether the number is that of an output or local.
fn is_read(variables: &[Variable], variable: u32) -> bool
    ensures { result ≡ of_variable variables.now (λ variable. not (is_input variable.role)) variable }
{
    match variables.get(variable as usize) {
        Some(variable) => match variable.role {
            Role::Input => false,
            Role::Output | Role::Local => true,
        },
        None => false,
    }
}
