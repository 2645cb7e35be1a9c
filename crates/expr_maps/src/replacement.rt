//! Expressions whose accesses are replaced.

ghost use Rattle.std.specs.Prelude.{ℕ};
ghost use Rattle.az_lin.specs.Affine.{AffineMap};
ghost use Rattle.az_ast.specs.Term.{Term, term};
ghost use Rattle.expr_maps.specs.Answers.{IsTerm, EachAccess};
ghost use Rattle.expr_maps.specs.Replaced.{replaced};

use az_ast::{Branch, Expr};
use az_lin::{LinFault, Map, TryCopy};
use sqlite_items::{Boxed, Items};
use std::alloc::Global;

/// What stands in place of each access: `gives` the expression, of an access that it `wants`, and
/// `Entry` exactly where it doesn't fit.
pub trait Replacement {
    ghost gives: { Self → ℕ → AffineMap → Term };

    ghost wants: { Self → ℕ → AffineMap → Type 0 };

    ghost fits: { Self → ℕ → AffineMap → Type 0 };

    fn at(&self, alloc: Global, variable: u32, map: &Map) -> Result<Expr, LinFault>
        requires { wants self.now variable map.now }
        ensures { IsTerm (gives self.now variable map.now) (fits self.now variable map.now) result };
}

/// The expression with each access replaced.
pub fn replace_accesses<R: Replacement>(
    alloc: Global,
    replacement: &R,
    e: &Expr,
) -> Result<Expr, LinFault>
    requires { EachAccess (R.wants replacement.now) (term e.now) }
    ensures { IsTerm (replaced (R.gives replacement.now) (term e.now)) (EachAccess (R.fits replacement.now) (term e.now)) result }
{
    match e {
        Expr::Const(v) => Ok(Expr::Const(*v)),
        Expr::Index(row) => Ok(Expr::Index(row.copy(alloc)?)),
        Expr::Access(x, f) => replacement.at(alloc, *x, f),
        Expr::Neg(e) => {
            let body = replace_accesses(alloc, replacement, e.get())?;
            Ok(Expr::Neg(Boxed::new(alloc, body)?))
        }
        Expr::Bin(op, a, b) => {
            let left = replace_accesses(alloc, replacement, a.get())?;
            let right = replace_accesses(alloc, replacement, b.get())?;
            Ok(Expr::Bin(*op, Boxed::new(alloc, left)?, Boxed::new(alloc, right)?))
        }
        Expr::Cases(branches) => {
            let branches = branches.as_slice();
            let mut items = Items::new(alloc);
            for branch in branches {
                let domain = branch.domain.copy(alloc)?;
                let body = replace_accesses(alloc, replacement, &branch.body)?;
                items.push(Branch { domain, body })?;
            }
            Ok(Expr::Cases(items))
        }
        Expr::Reduce(op, extra, domain, e) => {
            let domain = domain.copy(alloc)?;
            let body = replace_accesses(alloc, replacement, e.get())?;
            Ok(Expr::Reduce(*op, *extra, domain, Boxed::new(alloc, body)?))
        }
    }
}
