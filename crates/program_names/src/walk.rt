//! Walks over the pieces of an expression.

ghost use Rattle.std.specs.Prelude.{◌≡◌, ◌∷◌, map, length, IfOk, IfErr};
ghost use Rattle.std.specs.List.{list_any};
ghost use Rattle.az_lin.specs.declared.fault.LinFault.TheVariants.{Memory};
ghost use Rattle.program_names.specs.Pieces.{place, row, pieces, pieces_of_branches};
ghost use Rattle.program_names.specs.Sides.{alone};

use crate::piece::{Piece, PieceTest};
use crate::rows::{is_side_wanted, some_of_domain, some_row, some_side};
use az_lin::{LinFault, List, Name};
use program_grammar::{Branch, Expr, Term};
use side_rows::Scope;
use std::alloc::Global;

/// Whether a piece of an access passes.
fn some_of_access<P: PieceTest>(
    test: &P,
    scope: &Scope<'_>,
    name: &Name,
    sides: &[List<Term>],
) -> bool
    ensures { result ≡ list_any (P.wants test.now) (place name.now (length sides.now) ∷ map (λ side. row scope.now (alone side)) sides.now) }
{
    test.is_wanted(&Piece::Place(name, sides.len())) || some_side(test, scope, sides)
}

/// Whether a piece of the expression, whose place has the scope, passes the test.
#[cycle(walk)]
pub(crate) fn some_piece<'a, P: PieceTest>(
    alloc: Global,
    test: &P,
    scope: &Scope<'a>,
    expr: &'a Expr,
) -> Result<bool, LinFault>
    ensures ok { IfOk result (λ found. found ≡ list_any (P.wants test.now) (pieces expr.now scope.now)) }
    ensures cause { IfErr result (λ fault. fault ≡ Memory) }
{
    match expr {
        Expr::Constant(negative, number) => Ok(test.is_wanted(&Piece::Number(*negative, *number))),
        Expr::Index(side) => Ok(is_side_wanted(test, scope, side.as_slice())),
        Expr::Access(name, sides) => Ok(some_of_access(test, scope, name, sides.as_slice())),
        Expr::Negation(body) => some_piece(alloc, test, scope, body.get()),
        Expr::Binary(_, a, b) => {
            if some_piece(alloc, test, scope, a.get())? {
                return Ok(true);
            }
            some_piece(alloc, test, scope, b.get())
        }
        Expr::Cases(branches) => some_of_branches(alloc, test, scope, branches.as_slice()),
        Expr::Reduction(operator, extra, chains, body) => {
            let extra = extra.as_slice();
            if test.is_wanted(&Piece::Operator(*operator))
                || test.is_wanted(&Piece::Names(scope, extra))
            {
                return Ok(true);
            }
            let inner = scope.wider(alloc, extra)?;
            if some_row(test, &inner, chains.as_slice()) {
                return Ok(true);
            }
            some_piece(alloc, test, &inner, body.get())
        }
    }
}

#[cycle(walk)]
fn some_of_branches<'a, P: PieceTest>(
    alloc: Global,
    test: &P,
    scope: &Scope<'a>,
    branches: &'a [Branch],
) -> Result<bool, LinFault>
    ensures ok { IfOk result (λ found. found ≡ list_any (P.wants test.now) (pieces_of_branches branches.now scope.now)) }
    ensures cause { IfErr result (λ fault. fault ≡ Memory) }
{
    match branches {
        [] => Ok(false),
        [first, rest @ ..] => {
            if some_of_domain(test, scope, first.disjuncts.as_slice()) {
                return Ok(true);
            }
            if some_piece(alloc, test, scope, &first.body)? {
                return Ok(true);
            }
            some_of_branches(alloc, test, scope, rest)
        }
    }
}
