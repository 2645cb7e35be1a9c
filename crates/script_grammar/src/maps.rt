//! Maps: names of indices, an arrow, and affine sides.

ghost use Rattle.std.specs.Prelude.{◌≡◌, IfOk};
ghost use Rattle.grammar_rules.specs.Gives.{Gives};
ghost use Rattle.script_grammar.specs.Readers.{read_row, read_rows, read_map};
ghost use Rattle.script_grammar.specs.Values.{term_text, row_text};

use crate::numbers::signed;
use crate::words::RESERVED;
use crate::{MapText, TermText};
use az_lin::List;
use az_text::MarkKind;
use grammar_rules::classes::{MINUS, NAME, NUMBER, PLUS};
use grammar_rules::{ReadError, Term, TokenCursor, affine, items, names};
use std::alloc::{AllocError, Global};

fn term_text(term: Term) -> TermText
    ensures { result ≡ term_text term }
{
    TermText {
        factor: signed(term.negative, term.factor),
        name: term.name,
    }
}

fn row_text(alloc: Global, side: List<Term>) -> Result<List<TermText>, AllocError>
    ensures { IfOk result (λ row. row ≡ row_text side) }
{
    let terms = side.into_vec();
    let row: Vec<TermText> = terms
        .into_iter()
        .map(|term| term_text(term))
        .collect(alloc)?;
    Ok(List::from_vec(row))
}

fn row(
    alloc: Global,
    cursor: TokenCursor<'_>,
) -> Result<(List<TermText>, TokenCursor<'_>), ReadError>
    ensures { Gives result (read_row cursor.entry.budget cursor.entry.rest.now) }
{
    let (side, end) = affine(alloc, &RESERVED, cursor)?;
    Ok((row_text(alloc, side)?, end))
}

fn rows(
    alloc: Global,
    cursor: TokenCursor<'_>,
) -> Result<(List<List<TermText>>, TokenCursor<'_>), ReadError>
    ensures { Gives result (read_rows cursor.entry.budget cursor.entry.rest.now) }
{
    items(
        alloc,
        &RESERVED,
        &[PLUS, MINUS, NUMBER, NAME],
        cursor,
        |place| row(alloc, place),
    )
}

pub(crate) fn map(
    alloc: Global,
    cursor: TokenCursor<'_>,
) -> Result<(MapText, TokenCursor<'_>), ReadError>
    ensures { Gives result (read_map cursor.entry.budget cursor.entry.rest.now) }
{
    let inner = cursor.mark(MarkKind::OpenParen, 0)?;
    let (indices, next) = names(alloc, &RESERVED, inner)?;
    let next = next.mark(MarkKind::Arrow, 0)?;
    let (rows, end) = rows(alloc, next)?;
    let end = end.mark(MarkKind::CloseParen, 0)?;
    Ok((MapText { indices, rows }, end))
}
