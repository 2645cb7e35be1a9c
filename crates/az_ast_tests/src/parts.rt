//! The parts that tests put together.

ghost use Rattle.std.specs.Prelude.{◌≡◌, ◌<◌, All, IfOk};
ghost use Rattle.az_ast.specs.Placed.{IsAtWidth};
ghost use Rattle.az_ast.specs.Term.{term};
ghost use Rattle.az_ast_tests.specs.Parts.{space, input_and_output, IsOfTwo};

use crate::fault::Fault;
use az_ast::{Equation, Expr, Program, Role, ShapeFault, Variable};
use az_lin::{Conj, Domain, List, Name};
use std::alloc::Global;

/// All points of so many coordinates.
pub fn space(alloc: Global, width: usize) -> Result<Domain, Fault>
    ensures { IfOk result (λ domain. domain ≡ space width) }
{
    Ok(Domain::of_conj(alloc, Conj::new(width, List::new(alloc)))?)
}

fn variable(alloc: Global, name: &str, role: Role) -> Result<Variable, Fault>
    ensures { IfOk result (λ v. v ≡ record { name = name.now; role = role; domain = space 1 }) }
{
    let name = Name::from_str(alloc, name)?;
    let domain = space(alloc, 1)?;
    Ok(Variable { name, role, domain })
}

fn input_and_output(alloc: Global, input: &str, output: &str) -> Result<List<Variable>, Fault>
    ensures { IfOk result (λ variables. variables ≡ input_and_output input.now output.now) }
{
    let input = variable(alloc, input, Role::Input)?;
    let output = variable(alloc, output, Role::Output)?;
    let mut variables = List::new(alloc);
    variables.push(input)?;
    variables.push(output)?;
    Ok(variables)
}

/// An input and an output of one index, with these equations.
#[tactic(auto, using(crate::proofs::Placement::two_placed))]
pub fn program(
    alloc: Global,
    input: &str,
    output: &str,
    equations: List<Equation>,
) -> Result<Result<Program, ShapeFault>, Fault>
    requires { All IsOfTwo equations }
{
    let variables = input_and_output(alloc, input, output)?;
    let name = Name::from_str(alloc, "P")?;
    let pdom = space(alloc, 0)?;
    Ok(Program::new(name, List::new(alloc), pdom, variables, equations))
}

/// An equation alone.
pub fn one(alloc: Global, variable: u32, body: Expr) -> Result<List<Equation>, Fault>
    requires number { variable < 2 }
    requires width { IsAtWidth 2 (term body) 1 }
    ensures { IfOk result (λ equations. All IsOfTwo equations) }
{
    let mut equations = List::new(alloc);
    equations.push(Equation { variable, body })?;
    Ok(equations)
}
