//! What stands in a program where a rule on its shape looks.

ghost use Rattle.std.specs.Prelude.{◌≡◌, Bool};
ghost use Rattle.program_names.specs.PieceOf.{piece_of};
ghost use Rattle.program_names.specs.Pieces as pieces;

use az_lin::Name;
use program_grammar::Operator;
use side_rows::{Difference, Scope};

#[derive(Drop)]
pub(crate) enum Piece<'a, 'b> {
    /// A constant: whether a minus stands before it, and its number.
    Number(bool, u128),
    /// A row over a scope.
    Row(&'a Scope<'b>, &'a Difference<'a>),
    /// The variable of this name, at so many indices.
    Place(&'a Name, usize),
    /// Names that come into this scope.
    Names(&'a Scope<'b>, &'a [Name]),
    /// A domain of so many disjuncts.
    Domain(usize),
    /// The operator of a reduction.
    Operator(Operator),
}

/// A test of one piece.
pub(crate) trait PieceTest {
    ghost wants: { Self → pieces.Piece → Bool };

    fn is_wanted(&self, piece: &Piece<'_, '_>) -> bool
        ensures { result ≡ wants self.now (piece_of piece.now) };
}
