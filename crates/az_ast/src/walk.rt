//! Walks over an expression, itself first and then its parts in order of evaluation.

ghost use Rattle.std.specs.Prelude.{◌≡◌, ℕ, ◌-◌, ◌≤◌, Bool, IsTrue, ◌↔◌, SomeIff, map, ◌++◌, IfOk, IfErr, OnOk};
ghost use Rattle.std.specs.List.{list_any};
ghost use Rattle.az_ast.specs.Nodes.{nodes};
ghost use Rattle.az_ast.specs.Term.{Term, term};
ghost use Rattle.az_ast.specs.Walks.{parts, accesses, extra_under};
ghost use Rattle.az_ast.specs.Accesses.{access_of};
ghost use Rattle.az_ast.specs.declared.fault.ShapeFault.TheVariants.{Memory};

use crate::{Expr, ShapeFault};
use az_lin::Map;
use std::alloc::Global;

/// A test of one part of an expression.
pub trait PartTest {
    ghost wants: { Self → Term → Bool };

    fn is_wanted(&self, part: &Expr) -> bool
        ensures { result ≡ wants self.now (term part.now) };
}

/// Whether a part of the expression, which itself is one, passes the test.
pub fn some_part<P: PartTest>(test: &P, e: &Expr) -> bool
    ensures { result ≡ list_any (P.wants test.now) (parts (term e.now)) }
{
    if test.is_wanted(e) {
        return true;
    }
    match e {
        Expr::Const(_) | Expr::Index(_) | Expr::Access(_, _) => false,
        Expr::Neg(e) => some_part(test, e.get()),
        Expr::Bin(_, a, b) => some_part(test, a.get()) || some_part(test, b.get()),
        Expr::Cases(branches) => {
            for branch in branches.as_slice() {
                if some_part(test, &branch.body) {
                    return true;
                }
            }
            false
        }
        Expr::Reduce(_, _, _, e) => some_part(test, e.get()),
    }
}

/// How many nodes are left of so many after those of the expression. It looks at no more than there
/// may be.
pub fn nodes_left(e: &Expr, most: u32) -> Option<u32>
    ensures { SomeIff result (nodes (term e.now) ≤ most) (most - nodes (term e.now)) }
{
    let most = most.checked_sub(1)?;
    match e {
        Expr::Const(_) | Expr::Index(_) | Expr::Access(_, _) => Some(most),
        Expr::Neg(e) => nodes_left(e.get(), most),
        Expr::Bin(_, a, b) => nodes_left(b.get(), nodes_left(a.get(), most)?),
        Expr::Cases(branches) => {
            let mut left = most;
            for branch in branches.as_slice() {
                left = nodes_left(&branch.body, left)?;
            }
            Some(left)
        }
        Expr::Reduce(_, _, _, e) => nodes_left(e.get(), most),
    }
}

/// Whether no part stands under more than so many indices of reductions.
pub fn is_under(e: &Expr, most: u32) -> bool
    ensures { IsTrue result ↔ (extra_under (term e.now) ≤ most) }
{
    match e {
        Expr::Const(_) | Expr::Index(_) | Expr::Access(_, _) => true,
        Expr::Neg(e) => is_under(e.get(), most),
        Expr::Bin(_, a, b) => is_under(a.get(), most) && is_under(b.get(), most),
        Expr::Cases(branches) => {
            for branch in branches.as_slice() {
                if !is_under(&branch.body, most) {
                    return false;
                }
            }
            true
        }
        Expr::Reduce(_, extra, _, e) => match most.checked_sub(*extra) {
            Some(most) => is_under(e.get(), most),
            None => false,
        },
    }
}

/// An access: the number of the variable, and the map to the point that is read.
#[derive(Debug, Clone, Copy)]
pub struct Access<'a> {
    pub variable: u32,
    pub map: &'a Map,
}

/// The accesses in the expression, in order of evaluation.
pub fn accesses<'a>(alloc: Global, e: &'a Expr) -> Result<Vec<Access<'a>>, ShapeFault>
    ensures ok { IfOk result (λ found. map access_of found.items ≡ accesses (term e.now)) }
    ensures cause { IfErr result (λ fault. fault ≡ Memory) }
{
    let mut found = Vec::new(alloc);
    push_accesses(&mut found, e)?;
    Ok(found)
}

fn push_accesses<'a>(found: &mut Vec<Access<'a>>, e: &'a Expr) -> Result<(), ShapeFault>
    ensures ok { OnOk result (map access_of found.new.items ≡ map access_of found.old.items ++ accesses (term e.now)) }
    ensures cause { IfErr result (λ fault. fault ≡ Memory) }
{
    match e {
        Expr::Const(_) | Expr::Index(_) => Ok(()),
        Expr::Access(variable, map) => {
            found.push(Access {
                variable: *variable,
                map,
            })?;
            Ok(())
        }
        Expr::Neg(e) => push_accesses(found, e.get()),
        Expr::Bin(_, a, b) => {
            push_accesses(found, a.get())?;
            push_accesses(found, b.get())
        }
        Expr::Cases(branches) => {
            for branch in branches.as_slice() {
                push_accesses(found, &branch.body)?;
            }
            Ok(())
        }
        Expr::Reduce(_, _, _, e) => push_accesses(found, e.get()),
    }
}
