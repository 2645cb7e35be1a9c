//! The first kind of fault of one item of a text.

ghost use Rattle.std.specs.Prelude.{◌≡◌, ◌++◌, IfOk, IfErr};
ghost use Rattle.std.specs.List.{list_any};
ghost use Rattle.std.specs.Str.{bytes_eq};
ghost use Rattle.az_ast.specs.Shapes.{is_index_name};
ghost use Rattle.az_lin.specs.declared.fault.LinFault.TheVariants.{Memory};
ghost use Rattle.program_names.specs.Refusals.{header_kind, declaration_kind, written_kind, meant_kind, equation_kind};

use crate::items::{some_of_declaration, some_of_equation, some_of_header};
use crate::piece_tests::{BadOperator, OtherArity, Twice, Unknown, WideLiteral, WideRow};
use az_ast::{ShapeKind, is_index_name};
use az_lin::{LinFault, Name};
use program_grammar::{Declaration, Equation, ProgramText};
use std::alloc::Global;

fn has_index_name(names: &[Name]) -> bool
    ensures { result ≡ list_any is_index_name names.now }
{
    names.iter().any(|name| is_index_name(name.as_str()))
}

/// What is wrong with the header.
pub(crate) fn header_kind(alloc: Global, text: &ProgramText) -> Result<Option<ShapeKind>, LinFault>
    ensures ok { IfOk result (λ kind. kind ≡ header_kind text.now) }
    ensures cause { IfErr result (λ fault. fault ≡ Memory) }
{
    if has_index_name(text.params.as_slice()) {
        return Ok(Some(ShapeKind::Reserved));
    }
    if some_of_header(alloc, &Twice, text)? {
        return Ok(Some(ShapeKind::TwiceName));
    }
    if some_of_header(alloc, &Unknown { text }, text)? {
        return Ok(Some(ShapeKind::UnknownName));
    }
    if some_of_header(alloc, &WideRow, text)? {
        return Ok(Some(ShapeKind::Entry));
    }
    Ok(None)
}

fn is_declared(declarations: &[Declaration], name: &Name) -> bool
    ensures { result ≡ list_any (λ other. bytes_eq other.name name.now) declarations.now }
{
    declarations
        .iter()
        .any(|other| other.name.as_str() == name.as_str())
}

pub(crate) fn is_equated(equations: &[Equation], name: &Name) -> bool
    ensures { result ≡ list_any (λ other. bytes_eq other.variable name.now) equations.now }
{
    equations
        .iter()
        .any(|other| other.variable.as_str() == name.as_str())
}

fn is_declared_before(
    first: &[Declaration],
    second: &[Declaration],
    third: &[Declaration],
    name: &Name,
) -> bool
    ensures { result ≡ list_any (λ other. bytes_eq other.name name.now) ((first.now ++ second.now) ++ third.now) }
{
    is_declared(first, name) || is_declared(second, name) || is_declared(third, name)
}

/// What is wrong with a declaration after the earlier ones, which stand in three lists.
pub(crate) fn declaration_kind(
    alloc: Global,
    text: &ProgramText,
    first: &[Declaration],
    second: &[Declaration],
    third: &[Declaration],
    declaration: &Declaration,
) -> Result<Option<ShapeKind>, LinFault>
    ensures ok { IfOk result (λ kind. kind ≡ declaration_kind text.now ((first.now ++ second.now) ++ third.now) declaration.now) }
    ensures cause { IfErr result (λ fault. fault ≡ Memory) }
{
    let params = text.params.as_slice();
    if is_index_name(declaration.name.as_str()) {
        return Ok(Some(ShapeKind::Reserved));
    }
    if is_declared_before(first, second, third, &declaration.name) {
        return Ok(Some(ShapeKind::TwiceName));
    }
    if some_of_declaration(alloc, &Twice, params, declaration)? {
        return Ok(Some(ShapeKind::TwiceName));
    }
    if some_of_declaration(alloc, &Unknown { text }, params, declaration)? {
        return Ok(Some(ShapeKind::UnknownName));
    }
    if some_of_declaration(alloc, &WideRow, params, declaration)? {
        return Ok(Some(ShapeKind::Entry));
    }
    Ok(None)
}

/// What is wrong with what stands in an equation.
fn written_kind(
    alloc: Global,
    text: &ProgramText,
    equation: &Equation,
) -> Result<Option<ShapeKind>, LinFault>
    ensures ok { IfOk result (λ kind. kind ≡ written_kind text.now equation.now) }
    ensures cause { IfErr result (λ fault. fault ≡ Memory) }
{
    let params = text.params.as_slice();
    if some_of_equation(alloc, &Twice, params, equation)? {
        return Ok(Some(ShapeKind::TwiceName));
    }
    if some_of_equation(alloc, &Unknown { text }, params, equation)? {
        return Ok(Some(ShapeKind::UnknownName));
    }
    if some_of_equation(alloc, &WideLiteral, params, equation)? {
        return Ok(Some(ShapeKind::Literal));
    }
    if some_of_equation(alloc, &WideRow, params, equation)? {
        return Ok(Some(ShapeKind::Entry));
    }
    Ok(None)
}

/// What is wrong with what an equation is for.
fn meant_kind(
    alloc: Global,
    text: &ProgramText,
    earlier: &[Equation],
    equation: &Equation,
) -> Result<Option<ShapeKind>, LinFault>
    ensures ok { IfOk result (λ kind. kind ≡ meant_kind text.now earlier.now equation.now) }
    ensures cause { IfErr result (λ fault. fault ≡ Memory) }
{
    let params = text.params.as_slice();
    if some_of_equation(alloc, &OtherArity { text }, params, equation)? {
        return Ok(Some(ShapeKind::Arity));
    }
    if is_declared(text.inputs.as_slice(), &equation.variable) {
        return Ok(Some(ShapeKind::InputEquation));
    }
    if is_equated(earlier, &equation.variable) {
        return Ok(Some(ShapeKind::TwoEquations));
    }
    if some_of_equation(alloc, &BadOperator, params, equation)? {
        return Ok(Some(ShapeKind::BadReduce));
    }
    Ok(None)
}

/// What is wrong with an equation after the earlier ones.
pub(crate) fn equation_kind(
    alloc: Global,
    text: &ProgramText,
    earlier: &[Equation],
    equation: &Equation,
) -> Result<Option<ShapeKind>, LinFault>
    ensures ok { IfOk result (λ kind. kind ≡ equation_kind text.now earlier.now equation.now) }
    ensures cause { IfErr result (λ fault. fault ≡ Memory) }
{
    match written_kind(alloc, text, equation)? {
        Some(kind) => Ok(Some(kind)),
        None => meant_kind(alloc, text, earlier, equation),
    }
}
