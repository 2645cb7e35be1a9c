//! Whether a piece of an item of a text passes a test.

ghost use Rattle.std.specs.Prelude.{◌≡◌, IfOk, IfErr};
ghost use Rattle.std.specs.List.{list_any};
ghost use Rattle.az_lin.specs.declared.fault.LinFault.TheVariants.{Memory};
ghost use Rattle.program_names.specs.Pieces.{header_pieces, declaration_pieces, equation_pieces};

use crate::piece::{Piece, PieceTest};
use crate::rows::{some_of_domain, some_row};
use crate::walk::some_piece;
use az_lin::{LinFault, Name};
use program_grammar::{Declaration, Equation, ProgramText};
use side_rows::Scope;
use std::alloc::Global;

pub(crate) fn some_of_header<P: PieceTest>(
    alloc: Global,
    test: &P,
    text: &ProgramText,
) -> Result<bool, LinFault>
    ensures ok { IfOk result (λ found. found ≡ list_any (P.wants test.now) (header_pieces text.now)) }
    ensures cause { IfErr result (λ fault. fault ≡ Memory) }
{
    let params = text.params.as_slice();
    let none = Scope::new(alloc);
    if test.is_wanted(&Piece::Names(&none, params)) {
        return Ok(true);
    }
    let scope = none.wider(alloc, params)?;
    Ok(some_row(test, &scope, text.domain.as_slice()))
}

pub(crate) fn some_of_declaration<P: PieceTest>(
    alloc: Global,
    test: &P,
    params: &[Name],
    declaration: &Declaration,
) -> Result<bool, LinFault>
    ensures ok { IfOk result (λ found. found ≡ list_any (P.wants test.now) (declaration_pieces params.now declaration.now)) }
    ensures cause { IfErr result (λ fault. fault ≡ Memory) }
{
    let indices = declaration.indices.as_slice();
    let outer = Scope::new(alloc).wider(alloc, params)?;
    if test.is_wanted(&Piece::Names(&outer, indices)) {
        return Ok(true);
    }
    let scope = outer.wider(alloc, indices)?;
    Ok(some_of_domain(test, &scope, declaration.disjuncts.as_slice()))
}

pub(crate) fn some_of_equation<P: PieceTest>(
    alloc: Global,
    test: &P,
    params: &[Name],
    equation: &Equation,
) -> Result<bool, LinFault>
    ensures ok { IfOk result (λ found. found ≡ list_any (P.wants test.now) (equation_pieces params.now equation.now)) }
    ensures cause { IfErr result (λ fault. fault ≡ Memory) }
{
    let indices = equation.indices.as_slice();
    if test.is_wanted(&Piece::Place(&equation.variable, indices.len())) {
        return Ok(true);
    }
    let outer = Scope::new(alloc).wider(alloc, params)?;
    if test.is_wanted(&Piece::Names(&outer, indices)) {
        return Ok(true);
    }
    let scope = outer.wider(alloc, indices)?;
    some_piece(alloc, test, &scope, &equation.body)
}
