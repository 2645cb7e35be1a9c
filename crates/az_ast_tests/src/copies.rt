//! Copies are like what they were made of.

ghost use Rattle.std.specs.Prelude.{◌≡◌, [], IfOk};

use crate::fault::Fault;
use crate::parts::{one, program, space};
use az_ast::{Branch, Checked, Expr, Op, Program, Table, Values, is_under, nodes_left};
use az_lin::{List, Map, Name, Row, TryCopy};
use sqlite_items::{Boxed, Items};
use std::alloc::Global;

/// A sum with each form of expression but a constant and a case.
fn sum(alloc: Global) -> Result<Expr, Fault> {
    let row = Row::new(alloc, &[1], 0)?;
    let read = Expr::Access(0, Map::new(2, List::new(alloc)));
    let left = Expr::Neg(Boxed::new(alloc, Expr::Index(row))?);
    let right = Expr::Reduce(Op::Max, 1, space(alloc, 2)?, Boxed::new(alloc, read)?);
    Ok(Expr::Bin(Op::Add, Boxed::new(alloc, left)?, Boxed::new(alloc, right)?))
}

#[test]
fn copies_have_each_part(rt: HostRuntime) -> Result<(), Fault> {
    let alloc = rt.alloc();
    let mut branches = Items::new(alloc);
    let domain = space(alloc, 1)?;
    let body = sum(alloc)?;
    let branch = Branch { domain, body };
    branches.push(branch.copy(alloc)?)?;
    let domain = space(alloc, 1)?;
    branches.push(Branch {
        domain,
        body: Expr::Const(5),
    })?;
    let copy = Expr::Cases(branches).copy(alloc)?;
    assert_eq!(rt; nodes_left(&copy, 8), Some(1));
    assert_eq!(rt; is_under(&copy, 0), false);
    Ok(())
}

#[test]
fn a_program_is_copied(rt: HostRuntime) -> Result<(), Fault> {
    let alloc = rt.alloc();
    let program = program(alloc, "A", "X", one(alloc, 1, Expr::Const(5))?)??;
    let copy = program.copy(alloc)?;
    assert_eq!(rt; copy.variables().len(), 2);
    assert_eq!(rt; copy.equations().len(), 1);
    Ok(())
}

/// A program without variables.
#[tactic(auto, using(crate::proofs::Placement::bare_placed, crate::proofs::Placement::bare_certified))]
fn bare(alloc: Global) -> Result<Checked, Fault> {
    let name = Name::from_str(alloc, "P")?;
    let pdom = space(alloc, 0)?;
    let program = Program::new(
        name,
        List::new(alloc),
        pdom,
        List::new(alloc),
        List::new(alloc),
    )?;
    Ok(Checked::new(program))
}

#[test]
fn a_checked_program_is_copied(rt: HostRuntime) -> Result<(), Fault> {
    let alloc = rt.alloc();
    let copy = bare(alloc)?.copy(alloc)?;
    assert!(rt; copy.program().name().as_str() == "P");
    assert_eq!(rt; copy.program().pdom().disjuncts().len(), 1);
    Ok(())
}

#[test]
fn values_are_copied(rt: HostRuntime) -> Result<(), Fault> {
    let alloc = rt.alloc();
    let mut values = Values::new(alloc);
    values.set(3, Table::new(List::new(alloc)))?;
    let copy = values.copy(alloc)?;
    assert!(rt; copy.table(3).is_some() && copy.table(2).is_none());
    Ok(())
}
