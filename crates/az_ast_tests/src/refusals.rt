//! Each kind of refusal of a program, at its item, and limits that go before them.

ghost use Rattle.std.specs.Prelude.{◌<◌, All, IfOk};
ghost use Rattle.az_ast.specs.Placed.{IsAtWidth};
ghost use Rattle.az_ast.specs.Term.{term};
ghost use Rattle.az_ast_tests.specs.Parts.{IsOfTwo};

use crate::answer::{Answer, answer_of};
use crate::fault::Fault;
use crate::parts::{one, program, space};
use az_ast::{Equation, Expr, Op, ShapeKind};
use az_lin::{Limit, List, Map};
use sqlite_items::Boxed;
use std::alloc::Global;

/// What comes of an input and an output with these equations.
fn answer(
    alloc: Global,
    input: &str,
    output: &str,
    equations: List<Equation>,
) -> Result<Answer, Fault>
    requires { All IsOfTwo equations }
{
    Ok(answer_of(program(alloc, input, output, equations)?)?)
}

/// What comes of one equation, of the variable with this number.
fn answer_to(
    alloc: Global,
    input: &str,
    output: &str,
    variable: u32,
    body: Expr,
) -> Result<Answer, Fault>
    requires number { variable < 2 }
    requires width { IsAtWidth 2 (term body) 1 }
{
    answer(alloc, input, output, one(alloc, variable, body)?)
}

/// Two equations of the output.
fn twice(alloc: Global) -> Result<List<Equation>, Fault>
    ensures { IfOk result (λ equations. All IsOfTwo equations) }
{
    let mut equations = List::new(alloc);
    let first = Equation {
        variable: 1,
        body: Expr::Const(5),
    };
    let second = Equation {
        variable: 1,
        body: Expr::Const(6),
    };
    equations.push(first)?;
    equations.push(second)?;
    Ok(equations)
}

#[test]
fn each_name_comes_at_its_item(rt: HostRuntime) -> Result<(), Fault> {
    let alloc = rt.alloc();
    for (input, output, expected) in [
        ("i0", "X", Answer::Shape(ShapeKind::Reserved, 1)),
        ("X", "X", Answer::Shape(ShapeKind::TwiceName, 2)),
        ("A", "i", Answer::Shape(ShapeKind::NoEquation, 2)),
    ] {
        let found = answer(alloc, input, output, List::new(alloc))?;
        assert!(rt; found == expected);
    }
    Ok(())
}

#[test]
fn equations_come_at_their_items(rt: HostRuntime) -> Result<(), Fault> {
    let alloc = rt.alloc();
    let found = answer_to(alloc, "A", "X", 1, Expr::Const(5))?;
    assert!(rt; found == Answer::Program);
    let found = answer_to(alloc, "A", "X", 0, Expr::Const(5))?;
    assert!(rt; found == Answer::Shape(ShapeKind::InputEquation, 3));
    let found = answer(alloc, "A", "X", twice(alloc)?)?;
    assert!(rt; found == Answer::Shape(ShapeKind::TwoEquations, 4));
    Ok(())
}

/// A reduction of a constant over so many indices.
fn reduced(alloc: Global, op: Op, extra: u32) -> Result<Expr, Fault>
    requires { extra < 100 }
    ensures { IfOk result (λ e. IsAtWidth 2 (term e) 1) }
{
    let domain = space(alloc, 1 + extra as usize)?;
    let body = Boxed::new(alloc, Expr::Const(5))?;
    Ok(Expr::Reduce(op, extra, domain, body))
}

/// A read of the input at no indices.
fn misread(alloc: Global) -> Expr
    ensures { IsAtWidth 2 (term result) 1 }
{
    Expr::Access(0, Map::new(1, List::new(alloc)))
}

/// A constant under so many negations.
fn negated(alloc: Global, times: u32) -> Result<Expr, Fault>
    ensures { IfOk result (λ e. IsAtWidth 2 (term e) 1) }
{
    let mut e = Expr::Const(5);
    'times: for _ in 0..times {
        e = Expr::Neg(Boxed::new(alloc, e)?);
    }
    Ok(e)
}

#[test]
fn bodies_are_looked_at(rt: HostRuntime) -> Result<(), Fault> {
    let alloc = rt.alloc();
    let found = answer_to(alloc, "A", "X", 0, misread(alloc))?;
    assert!(rt; found == Answer::Shape(ShapeKind::Arity, 3));
    let found = answer_to(alloc, "A", "X", 1, reduced(alloc, Op::Sub, 15)?)?;
    assert!(rt; found == Answer::Shape(ShapeKind::BadReduce, 3));
    let found = answer_to(alloc, "i0", "X", 1, reduced(alloc, Op::Sub, 16)?)?;
    assert!(rt; found == Answer::Limit(Limit::Columns));
    Ok(())
}

#[test]
fn nodes_are_counted(rt: HostRuntime) -> Result<(), Fault> {
    let alloc = rt.alloc();
    let found = answer_to(alloc, "A", "X", 1, negated(alloc, 511)?)?;
    assert!(rt; found == Answer::Program);
    let found = answer_to(alloc, "i0", "X", 0, negated(alloc, 512)?)?;
    assert!(rt; found == Answer::Limit(Limit::Size));
    Ok(())
}
