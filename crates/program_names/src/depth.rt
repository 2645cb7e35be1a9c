//! How many indices of reductions a part of an expression stands under.

ghost use Rattle.std.specs.Prelude.{◌≡◌, ◌≤◌, IsTrue, ◌↔◌};
ghost use Rattle.program_names.specs.Extras.{extra_under, extra_below};
ghost use Rattle.program_names.specs.Refusals.{stands_under_many};

use program_grammar::{Branch, Equation, Expr};

/// The most indices, of an equation and its reductions together, that an expression stands under.
const MOST_COLUMNS: usize = 16;

/// Whether no part stands under more than so many indices of reductions.
#[cycle(depth)]
fn is_under(expr: &Expr, most: usize) -> bool
    ensures { IsTrue result ↔ (extra_under expr.now ≤ most) }
{
    match expr {
        Expr::Constant(_, _) | Expr::Index(_) | Expr::Access(_, _) => true,
        Expr::Negation(body) => is_under(body.get(), most),
        Expr::Binary(_, a, b) => is_under(a.get(), most) && is_under(b.get(), most),
        Expr::Cases(branches) => are_under(branches.as_slice(), most),
        Expr::Reduction(_, extra, _, body) => match most.checked_sub(extra.len()) {
            Some(room) => is_under(body.get(), room),
            None => false,
        },
    }
}

#[cycle(depth)]
fn are_under(branches: &[Branch], most: usize) -> bool
    ensures { IsTrue result ↔ (extra_below branches.now ≤ most) }
{
    match branches {
        [] => true,
        [first, rest @ ..] => is_under(&first.body, most) && are_under(rest, most),
    }
}

/// Whether an expression of the equation stands under too many indices.
pub(crate) fn stands_under_many(equation: &Equation) -> bool
    ensures { result ≡ stands_under_many equation.now }
{
    match MOST_COLUMNS.checked_sub(equation.indices.len()) {
        Some(room) => !is_under(&equation.body, room),
        None => true,
    }
}
