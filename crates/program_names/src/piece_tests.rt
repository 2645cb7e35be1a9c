//! What is looked for among the pieces of a text.

ghost use Rattle.std.specs.Prelude.{◌≡◌, ◌||◌, ◌==◌, ◌^◌, ◌-◌, nat_lt, not, length, if◌then◌else◌, false};
ghost use Rattle.std.specs.List.{list_any, find};
ghost use Rattle.std.specs.Option.{option_copied, option_map_or};
ghost use Rattle.std.specs.Str.{bytes_eq};
ghost use Rattle.program_names.specs.Refusals.{repeats, is_twice, is_named, is_unknown, is_wide_literal, is_wide_row, is_other_arity, is_bad_operator, has_many_disjuncts, declaration_of};

use crate::piece::{Piece, PieceTest};
use az_lin::Name;
use program_grammar::{Declaration, Operator, ProgramText};
use side_rows::{Scope, is_in};

const MOST_DISJUNCTS: usize = 8;

/// Whether a name comes into a scope that has it, or comes twice.
fn repeats(scope: &Scope<'_>, more: &[Name]) -> bool
    ensures { result ≡ repeats scope.now more.now }
{
    match more {
        [] => false,
        [name, rest @ ..] => {
            let name = name.as_str();
            scope.has(name) || is_in(rest, name) || repeats(scope, rest)
        }
    }
}

#[derive(Drop)]
pub(crate) struct Twice;

impl PieceTest for Twice {
    ghost wants = { λ test piece. is_twice piece };

    fn is_wanted(&self, piece: &Piece<'_, '_>) -> bool {
        match piece {
            Piece::Names(scope, more) => repeats(scope, more),
            _ => false,
        }
    }
}

fn find<'a>(declarations: &'a [Declaration], name: &str) -> Option<&'a Declaration>
    ensures { option_copied result ≡ find (is_named name.now) declarations.now }
{
    declarations
        .iter()
        .find(|declaration| name == declaration.name.as_str())
}

/// The first declaration of a name.
pub(crate) fn declaration_of<'a>(text: &'a ProgramText, name: &str) -> Option<&'a Declaration>
    ensures { option_copied result ≡ declaration_of text.now name.now }
{
    if let Some(found) = find(text.inputs.as_slice(), name) {
        return Some(found);
    }
    if let Some(found) = find(text.outputs.as_slice(), name) {
        return Some(found);
    }
    find(text.locals.as_slice(), name)
}

#[derive(Drop)]
pub(crate) struct Unknown<'a> {
    pub text: &'a ProgramText,
}

impl PieceTest for Unknown<'_> {
    ghost wants = { λ test piece. is_unknown test.text.now piece };

    fn is_wanted(&self, piece: &Piece<'_, '_>) -> bool {
        match piece {
            Piece::Row(scope, difference) => difference.is_unknown(scope),
            Piece::Place(name, _) => declaration_of(self.text, name.as_str()).is_none(),
            _ => false,
        }
    }
}

#[derive(Drop)]
pub(crate) struct WideLiteral;

impl PieceTest for WideLiteral {
    ghost wants = { λ test piece. is_wide_literal piece };

    fn is_wanted(&self, piece: &Piece<'_, '_>) -> bool {
        match piece {
            Piece::Number(true, number) => 1 << 63 < *number,
            Piece::Number(false, number) => (1 << 63) - 1 < *number,
            _ => false,
        }
    }
}

#[derive(Drop)]
pub(crate) struct WideRow;

impl PieceTest for WideRow {
    ghost wants = { λ test piece. is_wide_row piece };

    fn is_wanted(&self, piece: &Piece<'_, '_>) -> bool {
        match piece {
            Piece::Row(scope, difference) => difference.is_wide(scope),
            _ => false,
        }
    }
}

#[derive(Drop)]
pub(crate) struct OtherArity<'a> {
    pub text: &'a ProgramText,
}

impl PieceTest for OtherArity<'_> {
    ghost wants = { λ test piece. is_other_arity test.text.now piece };

    fn is_wanted(&self, piece: &Piece<'_, '_>) -> bool {
        match piece {
            Piece::Place(name, count) => match declaration_of(self.text, name.as_str()) {
                Some(declaration) => *count != declaration.indices.len(),
                None => false,
            },
            _ => false,
        }
    }
}

#[derive(Drop)]
pub(crate) struct BadOperator;

impl PieceTest for BadOperator {
    ghost wants = { λ test piece. is_bad_operator piece };

    fn is_wanted(&self, piece: &Piece<'_, '_>) -> bool {
        match piece {
            Piece::Operator(Operator::Subtract) => true,
            _ => false,
        }
    }
}

#[derive(Drop)]
pub(crate) struct ManyDisjuncts;

impl PieceTest for ManyDisjuncts {
    ghost wants = { λ test piece. has_many_disjuncts piece };

    fn is_wanted(&self, piece: &Piece<'_, '_>) -> bool {
        match piece {
            Piece::Domain(count) => MOST_DISJUNCTS < *count,
            _ => false,
        }
    }
}
