//! The items of a program in order, and the first that is at fault.

ghost use Rattle.std.specs.Prelude.{◌≡◌, ◌+◌, ◌<◌, ◌≤◌, [], length, All};
ghost use Rattle.az_ast.specs.Shapes.{declaration_kind, equation_kind, kinds_after, missing_kinds, first_kind};

use crate::shape::{declaration_kind, equation_kind, lacks_equation};
use crate::{Equation, ShapeFault, ShapeKind, Variable};

/// The first declaration at fault.
pub(crate) fn declaration_fault(variables: &[Variable]) -> Option<ShapeFault>
    requires { length variables.now ≤ 256 }
    ensures { result ≡ first_kind 1 (kinds_after declaration_kind [] variables.now) }
{
    'items: for place in 0..variables.len() {
        if let Some(kind) = declaration_kind(&variables[..place], &variables[place]) {
            let item = 1 + place as u32;
            return Some(ShapeFault::Shape { kind, item });
        }
    }
    None
}

/// The first equation at fault. The equations follow the declarations.
pub(crate) fn equation_fault(
    params: usize,
    variables: &[Variable],
    equations: &[Equation],
) -> Option<ShapeFault>
    requires few { length variables.now ≤ 256 }
    requires declared { All (λ equation. equation.variable < length variables.now) equations.now }
    ensures { result ≡ first_kind (1 + length variables.now) (kinds_after (equation_kind params variables.now) [] equations.now) }
{
    'items: for place in 0..equations.len() {
        if let Some(kind) = equation_kind(
            params,
            variables,
            &equations[..place],
            &equations[place],
        ) {
            let item = 1 + variables.len() as u32 + place as u32;
            return Some(ShapeFault::Shape { kind, item });
        }
    }
    None
}

/// The first output or local without an equation.
pub(crate) fn missing_fault(variables: &[Variable], equations: &[Equation]) -> Option<ShapeFault>
    requires { length variables.now ≤ 256 }
    ensures { result ≡ first_kind 1 (missing_kinds equations.now 0 variables.now) }
{
    'items: for place in 0..variables.len() {
        let x = place as u32;
        if lacks_equation(equations, x, &variables[place]) {
            let kind = ShapeKind::NoEquation;
            return Some(ShapeFault::Shape { kind, item: 1 + x });
        }
    }
    None
}
