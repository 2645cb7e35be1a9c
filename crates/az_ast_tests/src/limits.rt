//! How many parameters and disjuncts there may be.

ghost use Rattle.std.specs.Prelude.{◌≡◌, ◌<◌, IfOk, length};
ghost use Rattle.az_ast_tests.specs.Parts.{output};

use crate::answer::{Answer, answer_of};
use crate::fault::Fault;
use crate::parts::space;
use az_ast::{Program, Role, ShapeKind, Variable};
use az_lin::{Conj, Domain, Limit, List, Name};
use std::alloc::Global;

/// So many parameters of one name.
fn parameters(alloc: Global, count: u32) -> Result<List<Name>, Fault>
    ensures { IfOk result (λ names. length names ≡ count) }
{
    let mut names = List::new(alloc);
    'names: for number in 0..count {
        let name = Name::from_str(alloc, "N")?;
        names.push(name)?;
    }
    Ok(names)
}

/// All points of so many coordinates, so many times.
fn repeated(alloc: Global, width: usize, count: u32) -> Result<Domain, Fault>
    requires { 0 < count }
    ensures { IfOk result (λ domain. domain.width ≡ width) }
{
    let mut conjs = List::new(alloc);
    'conjs: for number in 0..count {
        conjs.push(Conj::new(width, List::new(alloc)))?;
    }
    Ok(Domain::of_list(width, conjs)?)
}

fn output(alloc: Global, domain: Domain) -> Result<List<Variable>, Fault>
    ensures { IfOk result (λ variables. variables ≡ output domain) }
{
    let name = Name::from_str(alloc, "X")?;
    let role = Role::Output;
    let mut variables = List::new(alloc);
    variables.push(Variable { name, role, domain })?;
    Ok(variables)
}

/// What is answered for parameters of one name, and an output over so many disjuncts that has no
/// equation.
#[tactic(auto, using(crate::proofs::Placement::one_placed))]
fn answer(alloc: Global, params: u32, disjuncts: u32) -> Result<Answer, Fault>
    requires { 0 < disjuncts }
{
    let width = params as usize;
    let name = Name::from_str(alloc, "P")?;
    let names = parameters(alloc, params)?;
    let pdom = space(alloc, width)?;
    let variables = output(alloc, repeated(alloc, width, disjuncts)?)?;
    let built = Program::new(name, names, pdom, variables, List::new(alloc));
    Ok(answer_of(built)?)
}

#[test]
fn many_parameters_and_disjuncts_are_refused(rt: HostRuntime) -> Result<(), Fault> {
    let alloc = rt.alloc();
    assert!(rt; answer(alloc, 9, 9)? == Answer::Limit(Limit::Names));
    assert!(rt; answer(alloc, 8, 9)? == Answer::Limit(Limit::Disjuncts));
    assert!(rt; answer(alloc, 8, 8)? == Answer::Shape(ShapeKind::TwiceName, 0));
    assert!(rt; answer(alloc, 1, 8)? == Answer::Shape(ShapeKind::NoEquation, 1));
    Ok(())
}
