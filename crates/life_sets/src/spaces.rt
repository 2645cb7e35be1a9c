//! The writers of a space, and the outputs, by number.

ghost use Rattle.std.specs.Prelude.{◌≡◌, IfOk};
ghost use Rattle.az_ast.specs.Shapes.{of_variable};
ghost use Rattle.target_map.specs.Storage.{shares_space, writers_of};
ghost use Rattle.target_map.specs.Times.{is_output, outputs_of};

use az_ast::{Program, Role};
use std::alloc::{AllocError, Global};
use target_map::Mapping;

/// Whether both variables are kept in one space.
fn shares_space(mapping: &Mapping, x: u32, y: u32) -> bool
    ensures { result ≡ shares_space mapping.now x y }
{
    match (mapping.storage(x), mapping.storage(y)) {
        (Some(first), Some(second)) => first.space.as_str() == second.space.as_str(),
        _ => false,
    }
}

/// The variables of a variable's space, in order of declaration.
pub(crate) fn writers_of(
    alloc: Global,
    program: &Program,
    mapping: &Mapping,
    x: u32,
) -> Result<Vec<u32>, AllocError>
    ensures { IfOk result (λ writers. writers.items ≡ writers_of program.now mapping.now x) }
{
    let count = program.variables().len() as u32;
    (0..count)
        .filter(|y| shares_space(mapping, x, *y))
        .collect(alloc)
}

fn is_output(program: &Program, x: u32) -> bool
    ensures { result ≡ of_variable program.now.variables (λ variable. is_output variable.role) x }
{
    match program.variables().get(x as usize) {
        Some(variable) => matches!(variable.role, Role::Output),
        None => false,
    }
}

/// The outputs in order of declaration.
pub(crate) fn outputs_of(alloc: Global, program: &Program) -> Result<Vec<u32>, AllocError>
    ensures { IfOk result (λ outputs. outputs.items ≡ outputs_of program.now) }
{
    let count = program.variables().len() as u32;
    (0..count).filter(|x| is_output(program, *x)).collect(alloc)
}
