//! Rows of their place's width: what each row, map and domain keeps by its type, said of the whole.

ghost use Rattle.std.specs.Prelude.{length, All};
ghost use Rattle.az_lin.specs.Affine.{HasEntries};
ghost use Rattle.az_ast.specs.Inner.KeptRows.{KeepsRows};
ghost use Rattle.az_ast.specs.Placed.{IsPlaced, IsEquationPlaced};
ghost use Rattle.az_ast.specs.Rows.{IsMapAt, IsDomainAt, HasDomainRows, HasBodyRows};
ghost use Rattle.az_ast.specs.Term.{term};

use crate::{Equation, Expr, Variable};
use az_lin::{Domain, Map, Row};

fn row_entries(row: &Row)
    ensures { HasEntries row.now }
{
    let _ = row.coefs();
    let _ = row.konst();
}

#[tactic(auto, using(crate::proofs::RowLaws::rows_at))]
fn map_rows(f: &Map)
    ensures { IsMapAt f.now.width f.now }
{
    let _ = f.rows();
}

#[tactic(auto, using(crate::proofs::RowLaws::domain_rows_at))]
pub(crate) fn domain_rows(domain: &Domain)
    ensures { IsDomainAt domain.now.width domain.now }
{
    let _ = domain.disjuncts();
}

pub(crate) fn expr_rows(e: &Expr)
    ensures { KeepsRows (term e.now) }
{
    match e {
        Expr::Const(v) => {
            let _value = *v;
        }
        Expr::Index(row) => row_entries(row),
        Expr::Access(_, f) => map_rows(f),
        Expr::Neg(e) => expr_rows(e.get()),
        Expr::Bin(_, a, b) => {
            expr_rows(a.get());
            expr_rows(b.get());
        }
        Expr::Cases(branches) => {
            for branch in branches.as_slice() {
                domain_rows(&branch.domain);
                expr_rows(&branch.body);
            }
        }
        Expr::Reduce(_, _, domain, e) => {
            domain_rows(domain);
            expr_rows(e.get());
        }
    }
}

pub(crate) fn variable_rows(variables: &[Variable])
    ensures { All HasDomainRows variables.now }
{
    'variables: for variable in variables {
        domain_rows(&variable.domain);
    }
}

pub(crate) fn equation_rows(variables: &[Variable], equations: &[Equation])
    requires { All (IsEquationPlaced variables.now) equations.now }
    ensures { All (HasBodyRows variables.now) equations.now }
{
    'equations: for equation in equations {
        expr_rows(&equation.body);
    }
}
