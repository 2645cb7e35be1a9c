//! Expressions of a program, from those of a text.

ghost use Rattle.std.specs.Prelude.{◌≡◌, ◌≤◌, ◌++◌, false, length, map, IfOk, IfErr};
ghost use Rattle.std.specs.List.{list_any};
ghost use Rattle.az_lin.specs.declared.fault.LinFault.TheVariants.{Memory};
ghost use Rattle.program_names.specs.Branches.{resolved_branch};
ghost use Rattle.program_names.specs.Extras.{extra_under, extra_below};
ghost use Rattle.program_names.specs.Pieces.{pieces, pieces_of_branches};
ghost use Rattle.program_names.specs.Refusals.{is_wide_literal, is_wide_row};
ghost use Rattle.program_names.specs.Resolved.{number_of, expression};

use crate::domains::{domain, plain_domain};
use crate::leaves::{constant, op_of};
use az_ast::{Branch, Expr};
use az_lin::{LinFault, Name};
use program_grammar as tree;
use side_rows::{Difference, Scope, map_of};
use sqlite_items::{Boxed, Items};
use std::alloc::Global;

/// The number of a variable: the first place of its name.
pub(crate) fn number(variables: &[Name], name: &str) -> u32
    requires { length variables.now ≤ 256 }
    ensures value { result ≡ number_of variables.now name.now }
    ensures bound { result ≤ length variables.now }
{
    match variables {
        [] => 0,
        [first, rest @ ..] => {
            if name == first.as_str() {
                0
            } else {
                1 + number(rest, name)
            }
        }
    }
}

/// The expression, whose place has the scope, and whose entries and constants are in range.
#[cycle(expression)]
pub(crate) fn expression(
    alloc: Global,
    variables: &[Name],
    scope: &Scope<'_>,
    expr: &tree::Expr,
) -> Result<Expr, LinFault>
    requires few { length variables.now ≤ 256 }
    requires narrow { extra_under expr.now ≤ 16 }
    requires literals { list_any is_wide_literal (pieces expr.now scope.now) ≡ false }
    requires rows { list_any is_wide_row (pieces expr.now scope.now) ≡ false }
    ensures ok { IfOk result (λ e. e ≡ expression variables.now expr.now scope.now) }
    ensures cause { IfErr result (λ fault. fault ≡ Memory) }
{
    match expr {
        tree::Expr::Constant(negative, number) => Ok(Expr::Const(constant(*negative, *number))),
        tree::Expr::Index(side) => {
            let row = Difference::alone(side.as_slice()).row(alloc, scope)?;
            Ok(Expr::Index(row))
        }
        tree::Expr::Access(name, sides) => {
            let f = map_of(alloc, scope, sides.as_slice())?;
            Ok(Expr::Access(number(variables, name.as_str()), f))
        }
        tree::Expr::Negation(body) => {
            let body = expression(alloc, variables, scope, body.get())?;
            Ok(Expr::Neg(Boxed::new(alloc, body)?))
        }
        tree::Expr::Binary(operator, a, b) => {
            let left = expression(alloc, variables, scope, a.get())?;
            let right = expression(alloc, variables, scope, b.get())?;
            let op = op_of(*operator);
            Ok(Expr::Bin(op, Boxed::new(alloc, left)?, Boxed::new(alloc, right)?))
        }
        tree::Expr::Cases(branches) => {
            let none = Items::new(alloc);
            let items = with_branches(alloc, variables, scope, branches.as_slice(), none)?;
            Ok(Expr::Cases(items))
        }
        tree::Expr::Reduction(operator, extra, chains, body) => {
            let inner = scope.wider(alloc, extra.as_slice())?;
            let domain = plain_domain(alloc, &inner, chains.as_slice())?;
            let body = expression(alloc, variables, &inner, body.get())?;
            let op = op_of(*operator);
            let count = extra.len() as u32;
            Ok(Expr::Reduce(op, count, domain, Boxed::new(alloc, body)?))
        }
    }
}

/// The branches, behind others.
#[cycle(expression)]
fn with_branches(
    alloc: Global,
    variables: &[Name],
    scope: &Scope<'_>,
    branches: &[tree::Branch],
    items: Items<Branch>,
) -> Result<Items<Branch>, LinFault>
    requires few { length variables.now ≤ 256 }
    requires narrow { extra_below branches.now ≤ 16 }
    requires literals { list_any is_wide_literal (pieces_of_branches branches.now scope.now) ≡ false }
    requires rows { list_any is_wide_row (pieces_of_branches branches.now scope.now) ≡ false }
    ensures ok { IfOk result (λ more. more ≡ items ++ map (resolved_branch variables.now scope.now) branches.now) }
    ensures cause { IfErr result (λ fault. fault ≡ Memory) }
{
    match branches {
        [] => Ok(items),
        [first, rest @ ..] => {
            let domain = domain(alloc, scope, first.disjuncts.as_slice())?;
            let body = expression(alloc, variables, scope, &first.body)?;
            let mut more = items;
            more.push(Branch { domain, body })?;
            with_branches(alloc, variables, scope, rest, more)
        }
    }
}
