//! Programs.

ghost use Rattle.std.specs.Prelude.{◌≡◌, ◌++◌, OnOk, IfOk, All, flat_map, string_bytes};
ghost use Rattle.std.specs.List.{list_any};
ghost use Rattle.az_ast.specs.Shapes.{IsProgram};
ghost use Rattle.az_text.specs.Lumps.{bytes_of};
ghost use Rattle.alphabets_show.specs.Shown.{declaration, declarations, declaration_if, has_role, section, count_of, equation as shown_equation, shown};
ghost use Rattle.alphabets_show.specs.Inner.{IsCounted, equations_end};

use crate::ShowFault;
use crate::domains::{push_domain, push_parameters};
use crate::expressions::{Declared, push_expression, push_variable};
use crate::names::push_indices;
use az_ast::{Equation, Program, Role, Variable};
use az_lin::{Domain, List, Name};
use std::alloc::{AllocError, Global};

#[tactic(auto, using(crate::proofs::Texts::lumps_joined))]
fn push_declaration(
    text: &mut String,
    params: &[Name],
    variable: &Variable,
) -> Result<(), AllocError>
    ensures ok { OnOk result (string_bytes text.new ≡ string_bytes text.old ++ bytes_of (declaration params.now variable.now)) }
{
    let count = variable.indices(params.len());
    text.push_str("  ")?;
    text.push_str(variable.name.as_str())?;
    text.push_str(" ")?;
    push_domain(text, params, count, &variable.domain)?;
    text.push_str(";\n")
}

fn has_role(role: Role, variable: &Variable) -> bool
    ensures { result ≡ has_role role variable.now }
{
    variable.role == role
}

fn some_has_role(role: Role, variables: &[Variable]) -> bool
    ensures { result ≡ list_any (has_role role) variables.now }
{
    variables.iter().any(|variable| has_role(role, variable))
}

/// The declaration of a variable that has the role.
fn push_if_role(
    text: &mut String,
    role: Role,
    params: &[Name],
    variable: &Variable,
) -> Result<(), AllocError>
    ensures ok { OnOk result (string_bytes text.new ≡ string_bytes text.old ++ bytes_of (declaration_if params.now role variable.now)) }
{
    if has_role(role, variable) {
        push_declaration(text, params, variable)
    } else {
        Ok(())
    }
}

/// The variables of one role.
fn push_declarations(
    text: &mut String,
    role: Role,
    params: &[Name],
    variables: &[Variable],
) -> Result<(), AllocError>
    ensures ok { OnOk result (string_bytes text.new ≡ string_bytes text.old ++ bytes_of (declarations params.now role variables.now)) }
{
    for variable in variables {
        push_if_role(text, role, params, variable)?;
    }
    Ok(())
}

/// The variables of one role, under its word.
#[tactic(auto, using(crate::proofs::Texts::lumps_joined))]
fn push_section(
    text: &mut String,
    heading: &str,
    role: Role,
    params: &[Name],
    variables: &[Variable],
) -> Result<(), AllocError>
    ensures ok { OnOk result (string_bytes text.new ≡ string_bytes text.old ++ bytes_of (section heading.now role params.now variables.now)) }
{
    if !some_has_role(role, variables) {
        return Ok(());
    }
    text.push_str(heading)?;
    text.push_str("\n")?;
    push_declarations(text, role, params, variables)
}

/// How many indices the variable with this number has.
fn count_of(params: &[Name], variables: &[Variable], x: u32) -> usize
    ensures { result ≡ count_of params.now variables.now x }
{
    match variables.get(x as usize) {
        Some(variable) => variable.indices(params.len()),
        None => 0,
    }
}

fn push_equation(
    text: &mut String,
    declared: Declared<'_>,
    equation: &Equation,
) -> Result<(), AllocError>
    requires { IsCounted declared.params.now declared.variables.now equation.now }
    ensures ok { OnOk result (string_bytes text.new ≡ string_bytes text.old ++ bytes_of (shown_equation declared.entry.params.now declared.entry.variables.now equation.now)) }
{
    let count = count_of(declared.params, declared.variables, equation.variable);
    text.push_str("  ")?;
    push_variable(text, declared.variables, equation.variable)?;
    text.push_str("[")?;
    push_indices(text, 0, count)?;
    text.push_str("] = ")?;
    push_expression(text, declared, &equation.body, count)?;
    text.push_str(";\n")
}

fn push_equations(
    text: &mut String,
    declared: Declared<'_>,
    equations: &[Equation],
) -> Result<(), AllocError>
    requires { All (IsCounted declared.params.now declared.variables.now) equations.now }
    ensures ok { OnOk result (string_bytes text.new ≡ string_bytes text.old ++ bytes_of (flat_map (shown_equation declared.entry.params.now declared.entry.variables.now) equations.now)) }
{
    for equation in equations {
        push_equation(text, declared, equation)?;
    }
    Ok(())
}

/// The equations, under their word, and the end of a program.
#[tactic(auto, using(crate::proofs::Texts::lumps_joined))]
fn push_end(
    text: &mut String,
    declared: Declared<'_>,
    equations: &[Equation],
) -> Result<(), AllocError>
    requires { All (IsCounted declared.params.now declared.variables.now) equations.now }
    ensures ok { OnOk result (string_bytes text.new ≡ string_bytes text.old ++ bytes_of (equations_end declared.entry.params.now declared.entry.variables.now equations.now)) }
{
    text.push_str("let\n")?;
    push_equations(text, declared, equations)?;
    text.push_str(".\n")
}

/// A program by its parts.
fn push_parts(
    text: &mut String,
    name: &str,
    pdom: &Domain,
    params: &[Name],
    variables: &[Variable],
    equations: &[Equation],
) -> Result<(), AllocError>
    requires { All (IsCounted params.now variables.now) equations.now }
    ensures ok { OnOk result (string_bytes text.new ≡ string_bytes text.old ++ shown (record { name = name.now; params = params.now; pdom = pdom.now; variables = variables.now; equations = equations.now })) }
{
    text.push_str("affine ")?;
    text.push_str(name)?;
    text.push_str(" ")?;
    push_parameters(text, params, pdom)?;
    text.push_str("\n")?;
    push_section(text, "input", Role::Input, params, variables)?;
    push_section(text, "output", Role::Output, params, variables)?;
    push_section(text, "local", Role::Local, params, variables)?;
    push_end(text, Declared { params, variables }, equations)
}

/// The text of a program, with one line for each declaration and equation. The time is linear in its length.
#[tactic(auto, using(crate::proofs::Counted::counted))]
pub fn show_program(alloc: Global, p: &Program) -> Result<List<u8>, ShowFault>
    ensures text { IfOk result (λ text. text ≡ shown p.now) }
    ensures rules { IsProgram p.now }
{
    let mut text = String::new(alloc);
    push_parts(
        &mut text,
        p.name().as_str(),
        p.pdom(),
        p.params(),
        p.variables(),
        p.equations(),
    )?;
    Ok(List::from_vec(text.into_bytes()))
}
