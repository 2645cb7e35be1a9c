//! The rules on the items of a program, one item at a time.

ghost use Rattle.std.specs.Prelude.{◌≡◌, ◌==◌};
ghost use Rattle.std.specs.List.{list_any};
ghost use Rattle.std.specs.Str.{bytes_eq};
ghost use Rattle.az_ast.specs.Shapes.{has_twice, header_kind, declaration_kind, equation_kind, lacks_equation, of_variable, is_index_name, is_input, is_sub};

use crate::index_name::is_index_name;
use crate::sought_parts::{BadReduction, OtherArity};
use crate::walk::some_part;
use crate::{Equation, Op, Role, ShapeKind, Variable};
use az_lin::Name;

fn is_among(names: &[Name], name: &str) -> bool
    ensures { result ≡ list_any (bytes_eq name.now) names.now }
{
    names.iter().any(|other| name == other.as_str())
}

fn has_twice(names: &[Name]) -> bool
    ensures { result ≡ has_twice names.now }
{
    match names {
        [] => false,
        [name, rest @ ..] => is_among(rest, name.as_str()) || has_twice(rest),
    }
}

fn has_index_name(names: &[Name]) -> bool
    ensures { result ≡ list_any is_index_name names.now }
{
    names.iter().any(|name| is_index_name(name.as_str()))
}

pub fn header_kind(params: &[Name]) -> Option<ShapeKind>
    ensures { result ≡ header_kind params.now }
{
    if has_index_name(params) {
        return Some(ShapeKind::Reserved);
    }
    if has_twice(params) {
        return Some(ShapeKind::TwiceName);
    }
    None
}

/// Whether one of the variables has the name.
fn is_declared(variables: &[Variable], name: &str) -> bool
    ensures { result ≡ list_any (λ other. bytes_eq other.name name.now) variables.now }
{
    variables.iter().any(|other| other.name.as_str() == name)
}

/// What is wrong with the declaration after the earlier ones.
pub fn declaration_kind(earlier: &[Variable], variable: &Variable) -> Option<ShapeKind>
    ensures { result ≡ declaration_kind earlier.now variable.now }
{
    if is_index_name(variable.name.as_str()) {
        return Some(ShapeKind::Reserved);
    }
    if is_declared(earlier, variable.name.as_str()) {
        return Some(ShapeKind::TwiceName);
    }
    None
}

pub fn is_input(role: Role) -> bool
    ensures { result ≡ is_input role }
{
    match role {
        Role::Input => true,
        Role::Output | Role::Local => false,
    }
}

pub fn is_sub(op: Op) -> bool
    ensures { result ≡ is_sub op }
{
    match op {
        Op::Sub => true,
        Op::Add | Op::Mul | Op::And | Op::Or | Op::Xor | Op::Max | Op::Min => false,
    }
}

fn is_equation_of_input(variables: &[Variable], equation: &Equation) -> bool
    ensures { result ≡ of_variable variables.now (λ variable. is_input variable.role) equation.now.variable }
{
    match variables.get(equation.variable as usize) {
        Some(variable) => is_input(variable.role),
        None => false,
    }
}

fn has_equation(equations: &[Equation], x: u32) -> bool
    ensures { result ≡ list_any (λ other. other.variable == x) equations.now }
{
    equations.iter().any(|other| other.variable == x)
}

/// What is wrong with the equation after the earlier ones.
pub fn equation_kind(
    params: usize,
    variables: &[Variable],
    earlier: &[Equation],
    equation: &Equation,
) -> Option<ShapeKind>
    ensures { result ≡ equation_kind params variables.now earlier.now equation.now }
{
    if some_part(&OtherArity { params, variables }, &equation.body) {
        return Some(ShapeKind::Arity);
    }
    if is_equation_of_input(variables, equation) {
        return Some(ShapeKind::InputEquation);
    }
    if has_equation(earlier, equation.variable) {
        return Some(ShapeKind::TwoEquations);
    }
    if some_part(&BadReduction, &equation.body) {
        return Some(ShapeKind::BadReduce);
    }
    None
}

/// Whether the variable with this number needs an equation and has none.
pub fn lacks_equation(equations: &[Equation], x: u32, variable: &Variable) -> bool
    ensures { result ≡ lacks_equation equations.now x variable.now }
{
    !is_input(variable.role) && !has_equation(equations, x)
}
