//! The changed program, put together and certified.

ghost use Rattle.std.specs.Prelude.{◌≡◌, None, IfOk, IfErr};
ghost use Rattle.az_lin.specs.declared.fault.LinFault.TheVariants.{Memory};
ghost use Rattle.az_ast.specs.Placed.{IsPlaced};
ghost use Rattle.az_ast.specs.Shapes.{limit_of, shape_of};
ghost use Rattle.rewriting.specs.Answers.{Gives};
ghost use Rattle.rewriting.specs.Definitions.{with_equations};

use crate::{ChangeFault, push_copies};
use az_ast::{Checked, Equation, Program, ShapeFault, Variable};
use az_lin::{LinFault, List, Name, TryCopy};
use domain_check::certify;
use std::alloc::Global;

fn copied_names(alloc: Global, names: &[Name]) -> Result<List<Name>, LinFault>
    ensures ok { IfOk result (λ copied. copied ≡ names.now) }
    ensures cause { IfErr result (λ fault. fault ≡ Memory) }
{
    let mut copied = Vec::with_capacity(alloc, names.len())?;
    push_copies(alloc, &mut copied, names)?;
    Ok(List::from_vec(copied))
}

fn certified(alloc: Global, program: Program) -> Result<Checked, ChangeFault>
    requires { limit_of program ≡ None }
    ensures { Gives program result }
{
    match certify(alloc, program) {
        Ok(checked) => Ok(checked),
        Err((_, fault)) => Err(ChangeFault::from(fault)),
    }
}

/// The program with other variables and equations, which keep the rules on places and shapes.
pub fn changed_program(
    alloc: Global,
    program: &Program,
    variables: List<Variable>,
    equations: List<Equation>,
) -> Result<Checked, ChangeFault>
    requires placed { IsPlaced (with_equations program.now variables equations) }
    requires shaped { shape_of (with_equations program.now variables equations) ≡ None }
    ensures { Gives (with_equations program.now variables equations) result }
{
    let name = program.name().copy(alloc)?;
    let params = copied_names(alloc, program.params())?;
    let pdom = program.pdom().copy(alloc)?;
    let changed = match Program::new(name, params, pdom, variables, equations) {
        Ok(changed) => changed,
        Err(ShapeFault::Limit(limit)) => return Err(ChangeFault::Limit(limit)),
        Err(ShapeFault::Memory) => return Err(ChangeFault::Memory),
        Err(ShapeFault::Shape { .. }) => unreachable!(),
    };
    certified(alloc, changed)
}
