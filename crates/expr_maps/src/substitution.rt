//! Maps put into expressions.

ghost use Rattle.std.specs.Prelude.{◌≡◌, ◌+◌, ◌≤◌, length, IfOk, IfErr};
ghost use Rattle.az_lin.specs.Affine.{HasEntryDomain};
ghost use Rattle.az_lin.specs.Answers.{IsExactly};
ghost use Rattle.az_lin.specs.Columns.{extended};
ghost use Rattle.az_lin.specs.declared.fault.LinFault.TheVariants.{Memory};
ghost use Rattle.az_ast.specs.Term.{term};
ghost use Rattle.az_ast.specs.Walks.{extra_under};
ghost use Rattle.az_poly.specs.Operations.{domain_before};
ghost use Rattle.expr_maps.specs.Answers.{IsTerm};
ghost use Rattle.expr_maps.specs.Columns.{CanPut, HasColumns, HasEntriesIn};
ghost use Rattle.expr_maps.specs.Put.{put};

use az_ast::{Branch, Expr};
use az_lin::{Domain, LinFault, Map};
use az_poly::{PolyFault, preimage};
use row_columns::extended;
use sqlite_items::{Boxed, Items};
use std::alloc::Global;

/// The points that the map takes into the domain.
fn domain_before(alloc: Global, domain: &Domain, f: &Map) -> Result<Domain, LinFault>
    requires rows { length f.now.rows ≡ domain.now.width }
    requires narrow { domain.now.width ≤ 64 }
    ensures { IsExactly HasEntryDomain (domain_before f.now domain.now) result }
{
    match preimage(alloc, domain, f) {
        Ok(before) => Ok(before),
        Err(PolyFault::Entry) => Err(LinFault::Entry),
        Err(PolyFault::Memory) => Err(LinFault::Memory),
        Err(PolyFault::Limit(_)) => unreachable!(),
    }
}

/// The map to be put into the body of a reduction of so many indices.
fn extended_under(alloc: Global, f: &Map, extra: u32, body: &Expr) -> Result<Map, LinFault>
    requires columns { HasColumns (term body.now) (length f.now.rows + extra) }
    requires few_rows { length f.now.rows + (extra + extra_under (term body.now)) ≤ 64 }
    requires few_columns { f.now.width + (extra + extra_under (term body.now)) ≤ 64 }
    ensures ok { IfOk result (λ inner. inner ≡ extended extra f.now) }
    ensures rows { IfOk result (λ inner. length inner.rows ≡ length f.now.rows + extra) }
    ensures under { IfOk result (λ inner. CanPut inner (term body.now)) }
    ensures cause { IfErr result (λ fault. fault ≡ Memory) }
{
    let _ = body;
    extended(alloc, f, extra as usize)
}

/// The expression with the map put in for the columns of its place.
pub fn put(alloc: Global, f: &Map, e: &Expr) -> Result<Expr, LinFault>
    requires { CanPut f.now (term e.now) }
    ensures { IsTerm (put f.now (term e.now)) (HasEntriesIn (put f.now (term e.now))) result }
{
    match e {
        Expr::Const(v) => Ok(Expr::Const(*v)),
        Expr::Index(row) => match row.compose(alloc, f) {
            Ok(row) => Ok(Expr::Index(row)),
            Err(fault) => Err(fault),
        },
        Expr::Access(x, g) => match g.compose(alloc, f) {
            Ok(map) => Ok(Expr::Access(*x, map)),
            Err(fault) => Err(fault),
        },
        Expr::Neg(e) => {
            let body = put(alloc, f, e.get())?;
            Ok(Expr::Neg(Boxed::new(alloc, body)?))
        }
        Expr::Bin(op, a, b) => {
            let left = put(alloc, f, a.get())?;
            let right = put(alloc, f, b.get())?;
            Ok(Expr::Bin(*op, Boxed::new(alloc, left)?, Boxed::new(alloc, right)?))
        }
        Expr::Cases(branches) => {
            let branches = branches.as_slice();
            let mut items = Items::new(alloc);
            for branch in branches {
                let domain = domain_before(alloc, &branch.domain, f)?;
                let body = put(alloc, f, &branch.body)?;
                items.push(Branch { domain, body })?;
            }
            Ok(Expr::Cases(items))
        }
        Expr::Reduce(op, extra, domain, e) => {
            let e = e.get();
            let inner = extended_under(alloc, f, *extra, e)?;
            let domain = domain_before(alloc, domain, &inner)?;
            let body = put(alloc, &inner, e)?;
            Ok(Expr::Reduce(*op, *extra, domain, Boxed::new(alloc, body)?))
        }
    }
}
