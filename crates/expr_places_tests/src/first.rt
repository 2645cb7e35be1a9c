//! A map put into a program's equation.

ghost use Rattle.std.specs.Prelude.{IfSome};
ghost use Rattle.expr_places_tests.specs.First.{FirstIsPut};

use az_ast::{Expr, Program};
use az_lin::{LinFault, Map};
use expr_maps::put;
use std::alloc::Global;

/// The first equation's body with the map put in, where the map has a row for each column of the
/// body and at most 40 columns.
pub fn put_into_first(alloc: Global, program: &Program, f: &Map) -> Option<Result<Expr, LinFault>>
    ensures { IfSome result (λ answer. FirstIsPut program.now f.now answer) }
{
    let equations = program.equations();
    if equations.is_empty() {
        return None;
    }
    let equation = &equations[0];
    let variable = &program.variables()[equation.variable as usize];
    if f.rows().len() != variable.domain.width() || f.width() > 40 {
        return None;
    }
    Some(put(alloc, f, &equation.body))
}
