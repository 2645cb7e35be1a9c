//! Expressions whose rows are made ready for their values at many points.

ghost use Rattle.std.specs.Prelude.{◌≡◌, ◌<◌, length, IfOk};
ghost use Rattle.az_ast.specs.Term as ast;
ghost use Rattle.value_walk.specs.Inner.Codes.{term, AreCodes, IsCodeAt};

use az_ast::{Expr, Op, Program};
use az_lin::{Domain, TryCopy};
use quick_rows::{QuickDomain, QuickMap, QuickRow};
use sqlite_items::{Boxed, Items};
use std::alloc::{AllocError, Global};

/// The forms are those of an expression.
#[cycle(code)]
#[derive(Debug, Drop)]
pub(crate) enum Code {
    Const(i64),
    Index(QuickRow),
    Access(u32, QuickMap),
    Neg(Boxed<Code>),
    Bin(Op, Boxed<Code>, Boxed<Code>),
    Cases(Items<Choice>),
    Reduce(Op, u32, Domain, Boxed<Code>),
}

#[cycle(code)]
#[derive(Debug, Drop)]
pub(crate) struct Choice {
    pub(crate) domain: QuickDomain,
    pub(crate) body: Code,
}

fn copied(alloc: Global, domain: &Domain) -> Result<Domain, AllocError>
    ensures { IfOk result (λ copied. copied ≡ domain.now) }
{
    match domain.copy(alloc) {
        Ok(copied) => Ok(copied),
        Err(_) => Err(AllocError),
    }
}

/// The expression made ready.
fn code_of(alloc: Global, e: &Expr) -> Result<Code, AllocError>
    ensures { IfOk result (λ code. term code ≡ ast.term e.now) }
{
    match e {
        Expr::Const(v) => Ok(Code::Const(*v)),
        Expr::Index(row) => Ok(Code::Index(QuickRow::of_row(alloc, row)?)),
        Expr::Access(x, f) => Ok(Code::Access(*x, QuickMap::of_map(alloc, f)?)),
        Expr::Neg(e) => {
            let body = code_of(alloc, e.get())?;
            Ok(Code::Neg(Boxed::new(alloc, body)?))
        }
        Expr::Bin(op, a, b) => {
            let left = code_of(alloc, a.get())?;
            let right = code_of(alloc, b.get())?;
            Ok(Code::Bin(*op, Boxed::new(alloc, left)?, Boxed::new(alloc, right)?))
        }
        Expr::Cases(branches) => {
            let mut choices = Items::new(alloc);
            for branch in branches.as_slice() {
                let domain = QuickDomain::of_domain(alloc, &branch.domain)?;
                let body = code_of(alloc, &branch.body)?;
                choices.push(Choice { domain, body })?;
            }
            Ok(Code::Cases(choices))
        }
        Expr::Reduce(op, extra, domain, e) => {
            let domain = copied(alloc, domain)?;
            let body = code_of(alloc, e.get())?;
            Ok(Code::Reduce(*op, *extra, domain, Boxed::new(alloc, body)?))
        }
    }
}

/// The body of a variable's equation; any code where it has none.
#[tactic(auto, using(crate::proofs::Codes::ok_code, crate::proofs::Codes::no_code))]
fn body_of(alloc: Global, program: &Program, x: u32) -> Result<Code, AllocError>
    requires { x < length program.now.variables }
    ensures { IfOk result (IsCodeAt program.now x) }
{
    match program.equation(x) {
        Some(equation) => code_of(alloc, &equation.body),
        None => Ok(Code::Const(0)),
    }
}

/// The bodies of the equations, by the numbers of the variables.
#[tactic(auto, using(crate::proofs::Codes::codes_more))]
pub(crate) fn bodies(alloc: Global, program: &Program) -> Result<Items<Code>, AllocError>
    ensures { IfOk result (AreCodes program.now) }
{
    let count = program.variables().len();
    let mut codes = Items::new(alloc);
    'variables: for x in 0..count {
        codes.push(body_of(alloc, program, x as u32)?)?;
    }
    Ok(codes)
}
