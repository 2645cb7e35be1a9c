//! The limits on a text.

ghost use Rattle.std.specs.Prelude.{◌≡◌, ◌||◌, IfOk, IfErr};
ghost use Rattle.std.specs.List.{list_any};
ghost use Rattle.az_lin.specs.declared.fault.LinFault.TheVariants.{Memory};
ghost use Rattle.program_names.specs.Pieces.{declaration_pieces, equation_pieces};
ghost use Rattle.program_names.specs.Refusals.{has_many_names, has_many_indices, has_many_columns, has_many_nodes, has_many_disjuncts, stands_under_many, some_declared, some_equated, limit_of};

use crate::depth::stands_under_many;
use crate::items::{some_of_declaration, some_of_equation};
use crate::piece_tests::ManyDisjuncts;
use az_ast::ShapeFault;
use az_lin::{Limit, LinFault, Name};
use program_grammar::{Declaration, Equation, ProgramText, is_within};
use std::alloc::Global;

const MOST_VARIABLES: usize = 256;

const MOST_PARAMS: usize = 8;

const MOST_INDICES: usize = 8;

const MOST_NODES: u32 = 512;

pub(crate) fn has_many_names(text: &ProgramText) -> bool
    ensures { result ≡ has_many_names text.now }
{
    let inputs = text.inputs.len();
    let outputs = text.outputs.len();
    let variables = inputs
        .saturating_add(outputs)
        .saturating_add(text.locals.len());
    MOST_VARIABLES < variables || MOST_PARAMS < text.params.len()
}

fn some_of_many_indices(declarations: &[Declaration]) -> bool
    ensures { result ≡ list_any has_many_indices declarations.now }
{
    declarations
        .iter()
        .any(|declaration| MOST_INDICES < declaration.indices.len())
}

fn some_under_many(equations: &[Equation]) -> bool
    ensures { result ≡ list_any stands_under_many equations.now }
{
    equations.iter().any(stands_under_many)
}

pub(crate) fn has_many_columns(text: &ProgramText) -> bool
    ensures { result ≡ has_many_columns text.now }
{
    some_of_many_indices(text.inputs.as_slice())
        || some_of_many_indices(text.outputs.as_slice())
        || some_of_many_indices(text.locals.as_slice())
        || some_under_many(text.equations.as_slice())
}

/// Whether a declaration has a domain of too many disjuncts.
fn some_wide_declaration(
    alloc: Global,
    params: &[Name],
    declarations: &[Declaration],
) -> Result<bool, LinFault>
    ensures ok { IfOk result (λ found. found ≡ list_any (λ declaration. list_any has_many_disjuncts (declaration_pieces params.now declaration)) declarations.now) }
    ensures cause { IfErr result (λ fault. fault ≡ Memory) }
{
    'items: for declaration in declarations {
        if some_of_declaration(alloc, &ManyDisjuncts, params, declaration)? {
            return Ok(true);
        }
    }
    Ok(false)
}

/// Whether an equation has a domain of too many disjuncts.
fn some_wide_equation(
    alloc: Global,
    params: &[Name],
    equations: &[Equation],
) -> Result<bool, LinFault>
    ensures ok { IfOk result (λ found. found ≡ list_any (λ equation. list_any has_many_disjuncts (equation_pieces params.now equation)) equations.now) }
    ensures cause { IfErr result (λ fault. fault ≡ Memory) }
{
    'items: for equation in equations {
        if some_of_equation(alloc, &ManyDisjuncts, params, equation)? {
            return Ok(true);
        }
    }
    Ok(false)
}

fn has_many_nodes(text: &ProgramText) -> bool
    ensures { result ≡ has_many_nodes text.now }
{
    text.equations
        .as_slice()
        .iter()
        .any(|equation| !is_within(&equation.body, MOST_NODES))
}

/// Whether a domain of the text has too many disjuncts.
fn has_many_disjuncts(alloc: Global, text: &ProgramText) -> Result<bool, LinFault>
    ensures ok { IfOk result (λ found. found ≡ (some_declared has_many_disjuncts text.now || some_equated has_many_disjuncts text.now)) }
    ensures cause { IfErr result (λ fault. fault ≡ Memory) }
{
    let params = text.params.as_slice();
    if some_wide_declaration(alloc, params, text.inputs.as_slice())? {
        return Ok(true);
    }
    if some_wide_declaration(alloc, params, text.outputs.as_slice())? {
        return Ok(true);
    }
    if some_wide_declaration(alloc, params, text.locals.as_slice())? {
        return Ok(true);
    }
    some_wide_equation(alloc, params, text.equations.as_slice())
}

/// The first limit that is exceeded.
pub(crate) fn limit(alloc: Global, text: &ProgramText) -> Result<Option<ShapeFault>, LinFault>
    ensures ok { IfOk result (λ fault. fault ≡ limit_of text.now) }
    ensures cause { IfErr result (λ fault. fault ≡ Memory) }
{
    if has_many_names(text) {
        return Ok(Some(ShapeFault::Limit(Limit::Names)));
    }
    if has_many_columns(text) {
        return Ok(Some(ShapeFault::Limit(Limit::Columns)));
    }
    if has_many_nodes(text) {
        return Ok(Some(ShapeFault::Limit(Limit::Size)));
    }
    if has_many_disjuncts(alloc, text)? {
        return Ok(Some(ShapeFault::Limit(Limit::Disjuncts)));
    }
    Ok(None)
}
