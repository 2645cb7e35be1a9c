//! Copies of expressions.

ghost use Rattle.std.specs.Prelude.{◌≡◌, IfOk, IfErr};
ghost use Rattle.az_lin.specs.declared.fault.LinFault.TheVariants as lin;
ghost use Rattle.az_ast.specs.declared.fault.ShapeFault.TheVariants.{Memory};

use crate::{Branch, Expr, ShapeFault};
use az_lin::{LinFault, TryCopy};
use sqlite_items::{Boxed, Items};
use std::alloc::Global;

/// A copy, where want of memory is the only fault.
pub(crate) fn copied<T: TryCopy>(alloc: Global, item: &T) -> Result<T, ShapeFault>
    ensures ok { IfOk result (λ copied. copied ≡ item.now) }
    ensures cause { IfErr result (λ fault. fault ≡ Memory) }
{
    match item.copy(alloc) {
        Ok(copied) => Ok(copied),
        Err(LinFault::Memory) => Err(ShapeFault::Memory),
        Err(_) => unreachable!(),
    }
}

pub(crate) fn copy_of(alloc: Global, e: &Expr) -> Result<Expr, LinFault>
    ensures ok { IfOk result (λ copied. copied ≡ e.now) }
    ensures cause { IfErr result (λ fault. fault ≡ lin.Memory) }
{
    match e {
        Expr::Const(v) => Ok(Expr::Const(*v)),
        Expr::Index(row) => Ok(Expr::Index(row.copy(alloc)?)),
        Expr::Access(x, f) => Ok(Expr::Access(*x, f.copy(alloc)?)),
        Expr::Neg(e) => {
            let body = copy_of(alloc, e.get())?;
            Ok(Expr::Neg(Boxed::new(alloc, body)?))
        }
        Expr::Bin(op, a, b) => {
            let left = copy_of(alloc, a.get())?;
            let right = copy_of(alloc, b.get())?;
            Ok(Expr::Bin(*op, Boxed::new(alloc, left)?, Boxed::new(alloc, right)?))
        }
        Expr::Cases(branches) => {
            let mut items = Items::new(alloc);
            for branch in branches.as_slice() {
                let domain = branch.domain.copy(alloc)?;
                let body = copy_of(alloc, &branch.body)?;
                items.push(Branch { domain, body })?;
            }
            Ok(Expr::Cases(items))
        }
        Expr::Reduce(op, extra, domain, e) => {
            let domain = domain.copy(alloc)?;
            let body = copy_of(alloc, e.get())?;
            Ok(Expr::Reduce(*op, *extra, domain, Boxed::new(alloc, body)?))
        }
    }
}

impl TryCopy for Branch {
    fn copy(&self, alloc: Global) -> Result<Self, LinFault> {
        let domain = self.domain.copy(alloc)?;
        let body = copy_of(alloc, &self.body)?;
        Ok(Branch { domain, body })
    }
}

impl TryCopy for Expr {
    fn copy(&self, alloc: Global) -> Result<Self, LinFault> {
        copy_of(alloc, self)
    }
}

impl Expr {
    /// An equal expression in memory of its own.
    pub fn copy(&self, alloc: Global) -> Result<Expr, ShapeFault>
        ensures ok { IfOk result (λ copied. copied ≡ self.now) }
        ensures cause { IfErr result (λ fault. fault ≡ Memory) }
    {
        copied(alloc, self)
    }
}
