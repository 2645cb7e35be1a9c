//! The equations of a program, from those of a text.

ghost use Rattle.std.specs.Prelude.{◌≡◌, ◌≤◌, false, length, map, IfOk, IfErr};
ghost use Rattle.std.specs.List.{list_any};
ghost use Rattle.az_lin.specs.declared.fault.LinFault.TheVariants.{Memory};
ghost use Rattle.program_names.specs.Pieces.{equation_pieces};
ghost use Rattle.program_names.specs.Refusals.{is_wide_literal, is_wide_row, stands_under_many};
ghost use Rattle.program_names.specs.Resolved.{equation_of};

use crate::expressions::{expression, number};
use az_ast as program;
use az_lin::{LinFault, List, Name};
use program_grammar::Equation;
use side_rows::joined;
use std::alloc::Global;

/// The equation, whose entries and constants are in range.
fn equation(
    alloc: Global,
    variables: &[Name],
    params: &[Name],
    equation: &Equation,
) -> Result<program::Equation, LinFault>
    requires few { length variables.now ≤ 256 }
    requires narrow { stands_under_many equation.now ≡ false }
    requires literals { list_any is_wide_literal (equation_pieces params.now equation.now) ≡ false }
    requires rows { list_any is_wide_row (equation_pieces params.now equation.now) ≡ false }
    ensures ok { IfOk result (λ made. made ≡ equation_of variables.now params.now equation.now) }
    ensures cause { IfErr result (λ fault. fault ≡ Memory) }
{
    let scope = joined(alloc, params, equation.indices.as_slice())?;
    let body = expression(alloc, variables, &scope, &equation.body)?;
    let variable = number(variables, equation.variable.as_str());
    Ok(program::Equation { variable, body })
}

/// The equations, whose entries and constants are in range.
pub(crate) fn equations(
    alloc: Global,
    variables: &[Name],
    params: &[Name],
    equations: &[Equation],
) -> Result<List<program::Equation>, LinFault>
    requires few { length variables.now ≤ 256 }
    requires narrow { list_any stands_under_many equations.now ≡ false }
    requires literals { list_any (λ equation. list_any is_wide_literal (equation_pieces params.now equation)) equations.now ≡ false }
    requires rows { list_any (λ equation. list_any is_wide_row (equation_pieces params.now equation)) equations.now ≡ false }
    ensures ok { IfOk result (λ made. made ≡ map (equation_of variables.now params.now) equations.now) }
    ensures cause { IfErr result (λ fault. fault ≡ Memory) }
{
    let mut made = Vec::with_capacity(alloc, equations.len())?;
    'items: for item in equations {
        made.push(equation(alloc, variables, params, item)?)?;
    }
    Ok(List::from_vec(made))
}
