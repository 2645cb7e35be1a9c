//! The number of nodes of an expression, against a limit.

ghost use Rattle.std.specs.Prelude.{◌≡◌, ◌+◌, ◌<◌, MatchOption, nat_le};
ghost use Rattle.program_grammar.specs.Nodes.{nodes, nodes_of_bodies};

use crate::{Branch, Expr};

/// What is left of a number behind the nodes, if it is enough.
#[cycle(size)]
fn spend(expr: &Expr, left: u32) -> Option<u32>
    ensures { MatchOption result (left < nodes expr.now) (λ rest. rest + nodes expr.now ≡ left) }
{
    let left = left.checked_sub(1)?;
    match expr {
        Expr::Constant(_, _) | Expr::Index(_) | Expr::Access(_, _) => Some(left),
        Expr::Negation(body) => spend(body.get(), left),
        Expr::Binary(_, a, b) => spend(b.get(), spend(a.get(), left)?),
        Expr::Cases(branches) => spend_all(branches.as_slice(), left),
        Expr::Reduction(_, _, _, body) => spend(body.get(), left),
    }
}

#[cycle(size)]
fn spend_all(branches: &[Branch], left: u32) -> Option<u32>
    ensures { MatchOption result (left < nodes_of_bodies branches.now) (λ rest. rest + nodes_of_bodies branches.now ≡ left) }
{
    match branches {
        [] => Some(left),
        [first, rest @ ..] => spend_all(rest, spend(&first.body, left)?),
    }
}

/// Whether an expression has at most so many nodes.
pub fn is_within(expr: &Expr, limit: u32) -> bool
    ensures { result ≡ nat_le (nodes expr.now) limit }
{
    spend(expr, limit).is_some()
}
