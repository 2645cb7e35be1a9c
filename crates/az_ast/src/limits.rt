//! The limits on a program's parts.

ghost use Rattle.std.specs.Prelude.{◌≡◌, ◌||◌, ◌++◌, nat_lt, map, flat_map};
ghost use Rattle.std.specs.List.{list_any};
ghost use Rattle.az_ast.specs.Nodes.{nodes};
ghost use Rattle.az_ast.specs.Shapes.{indices, stands_under_many};
ghost use Rattle.az_ast.specs.Term.{term};
ghost use Rattle.az_ast.specs.Walks.{domains, is_outside};

use crate::sought_parts::OutsideBounds;
use crate::walk::{is_under, nodes_left, some_part};
use crate::{Equation, Variable};
use az_lin::Domain;

const MOST_INDICES: usize = 8;

/// The most indices, of an equation and its reductions together, that an expression stands under.
const MOST_COLUMNS: usize = 16;

const MOST_NODES: u32 = 512;

pub(crate) fn has_many_indices(params: usize, variables: &[Variable]) -> bool
    ensures { result ≡ list_any (λ variable. nat_lt 8 (indices params variable)) variables.now }
{
    variables
        .iter()
        .any(|variable| MOST_INDICES < variable.indices(params))
}

fn stands_under_many(params: usize, variables: &[Variable], equation: &Equation) -> bool
    ensures { result ≡ stands_under_many params variables.now equation.now }
{
    let Some(variable) = variables.get(equation.variable as usize) else {
        return false;
    };
    match MOST_COLUMNS.checked_sub(variable.indices(params)) {
        Some(room) => !is_under(&equation.body, room as u32),
        None => true,
    }
}

pub(crate) fn some_under_many(params: usize, variables: &[Variable], equations: &[Equation]) -> bool
    ensures { result ≡ list_any (stands_under_many params variables.now) equations.now }
{
    equations
        .iter()
        .any(|equation| stands_under_many(params, variables, equation))
}

fn is_large(equation: &Equation) -> bool
    ensures { result ≡ nat_lt 512 (nodes (term equation.now.body)) }
{
    nodes_left(&equation.body, MOST_NODES).is_none()
}

pub(crate) fn has_many_nodes(equations: &[Equation]) -> bool
    ensures { result ≡ list_any (λ equation. nat_lt 512 (nodes (term equation.body))) equations.now }
{
    equations.iter().any(is_large)
}

fn some_variable_outside(bounds: &OutsideBounds, variables: &[Variable]) -> bool
    ensures { result ≡ list_any (λ variable. is_outside bounds.now.least bounds.now.most variable.domain) variables.now }
{
    variables
        .iter()
        .any(|variable| bounds.is_outside(&variable.domain))
}

fn some_equation_outside(bounds: &OutsideBounds, equations: &[Equation]) -> bool
    ensures { result ≡ list_any (λ equation. list_any (is_outside bounds.now.least bounds.now.most) (domains (term equation.body))) equations.now }
{
    equations
        .iter()
        .any(|equation| has_outside(bounds, equation))
}

fn has_outside(bounds: &OutsideBounds, equation: &Equation) -> bool
    ensures { result ≡ list_any (is_outside bounds.now.least bounds.now.most) (domains (term equation.now.body)) }
{
    some_part(bounds, &equation.body)
}

pub(crate) fn some_outside(
    bounds: &OutsideBounds,
    variables: &[Variable],
    equations: &[Equation],
) -> bool
    ensures { result ≡ list_any (is_outside bounds.now.least bounds.now.most) (map (λ variable. variable.domain) variables.now ++ flat_map (λ equation. domains (term equation.body)) equations.now) }
{
    let variable = some_variable_outside(bounds, variables);
    variable || some_equation_outside(bounds, equations)
}
