//! The variables of a program, from the declarations of a text.

ghost use Rattle.std.specs.Prelude.{◌≡◌, ◌++◌, [], false, map, IfOk, IfErr};
ghost use Rattle.std.specs.List.{list_any};
ghost use Rattle.az_lin.specs.declared.fault.LinFault.TheVariants.{Memory};
ghost use Rattle.program_names.specs.Pieces.{declaration_pieces};
ghost use Rattle.program_names.specs.Refusals.{is_wide_row, some_declared};
ghost use Rattle.program_names.specs.Resolved.{variable_of, variables_of, declared_names};

use crate::domains::domain;
use az_ast::{Role, Variable};
use az_lin::{LinFault, List, Name, TryCopy};
use program_grammar::{Declaration, ProgramText};
use side_rows::joined;
use std::alloc::Global;

/// The variable of a declaration, whose entries are in range.
fn variable(
    alloc: Global,
    params: &[Name],
    role: Role,
    declaration: &Declaration,
) -> Result<Variable, LinFault>
    requires { list_any is_wide_row (declaration_pieces params.now declaration.now) ≡ false }
    ensures ok { IfOk result (λ variable. variable ≡ variable_of params.now role declaration.now) }
    ensures cause { IfErr result (λ fault. fault ≡ Memory) }
{
    let scope = joined(alloc, params, declaration.indices.as_slice())?;
    let domain = domain(alloc, &scope, declaration.disjuncts.as_slice())?;
    let name = declaration.name.copy(alloc)?;
    Ok(Variable { name, role, domain })
}

/// The variables, and those of more declarations.
fn with_variables(
    alloc: Global,
    params: &[Name],
    role: Role,
    declarations: &[Declaration],
    variables: List<Variable>,
) -> Result<List<Variable>, LinFault>
    requires { list_any (λ declaration. list_any is_wide_row (declaration_pieces params.now declaration)) declarations.now ≡ false }
    ensures ok { IfOk result (λ more. more ≡ variables ++ map (variable_of params.now role) declarations.now) }
    ensures cause { IfErr result (λ fault. fault ≡ Memory) }
{
    let mut more = variables;
    'items: for declaration in declarations {
        more.push(variable(alloc, params, role, declaration)?)?;
    }
    Ok(more)
}

/// The variables in their order, whose entries are in range.
pub(crate) fn variables(alloc: Global, text: &ProgramText) -> Result<List<Variable>, LinFault>
    requires { some_declared is_wide_row text.now ≡ false }
    ensures ok { IfOk result (λ variables. variables ≡ variables_of text.now) }
    ensures cause { IfErr result (λ fault. fault ≡ Memory) }
{
    let params = text.params.as_slice();
    let none = List::new(alloc);
    let inputs = with_variables(alloc, params, Role::Input, text.inputs.as_slice(), none)?;
    let outputs = with_variables(alloc, params, Role::Output, text.outputs.as_slice(), inputs)?;
    with_variables(alloc, params, Role::Local, text.locals.as_slice(), outputs)
}

/// The names, and those of more declarations.
fn with_names(
    alloc: Global,
    declarations: &[Declaration],
    names: List<Name>,
) -> Result<List<Name>, LinFault>
    ensures ok { IfOk result (λ more. more ≡ names ++ map (λ declaration. declaration.name) declarations.now) }
    ensures cause { IfErr result (λ fault. fault ≡ Memory) }
{
    let mut more = names;
    'items: for declaration in declarations {
        more.push(declaration.name.copy(alloc)?)?;
    }
    Ok(more)
}

/// The names of the variables in their order.
pub(crate) fn declared_names(alloc: Global, text: &ProgramText) -> Result<List<Name>, LinFault>
    ensures ok { IfOk result (λ names. names ≡ declared_names text.now) }
    ensures cause { IfErr result (λ fault. fault ≡ Memory) }
{
    let none = List::new(alloc);
    let inputs = with_names(alloc, text.inputs.as_slice(), none)?;
    let outputs = with_names(alloc, text.outputs.as_slice(), inputs)?;
    with_names(alloc, text.locals.as_slice(), outputs)
}
