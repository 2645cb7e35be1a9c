//! Lists of names and of numbers.

ghost use Rattle.grammar_rules.specs.Gives.{Gives};
ghost use Rattle.script_grammar.specs.Readers.{read_variables, read_numbers, read_vector, read_magnitudes, read_factors};

use crate::numbers::{magnitude, number};
use crate::words::{RESERVED, name};
use az_lin::{List, Name};
use az_text::MarkKind;
use grammar_rules::classes::{MINUS, NUMBER};
use grammar_rules::{ReadError, TokenCursor, items, some_items};
use std::alloc::Global;

/// One name or more.
pub(crate) fn variables(
    alloc: Global,
    cursor: TokenCursor<'_>,
) -> Result<(List<Name>, TokenCursor<'_>), ReadError>
    ensures { Gives result (read_variables cursor.entry.budget cursor.entry.rest.now) }
{
    some_items(alloc, &RESERVED, cursor, |place| name(alloc, place))
}

fn numbers(
    alloc: Global,
    cursor: TokenCursor<'_>,
) -> Result<(List<i128>, TokenCursor<'_>), ReadError>
    ensures { Gives result (read_numbers cursor.entry.budget cursor.entry.rest.now) }
{
    items(
        alloc,
        &RESERVED,
        &[MINUS, NUMBER],
        cursor,
        |place| number(place),
    )
}

/// Numbers in brackets.
pub(crate) fn vector(
    alloc: Global,
    cursor: TokenCursor<'_>,
) -> Result<(List<i128>, TokenCursor<'_>), ReadError>
    ensures { Gives result (read_vector cursor.entry.budget cursor.entry.rest.now) }
{
    let inner = cursor.mark(MarkKind::OpenBracket, 0)?;
    let (numbers, end) = numbers(alloc, inner)?;
    Ok((numbers, end.mark(MarkKind::CloseBracket, 0)?))
}

fn magnitudes(
    alloc: Global,
    cursor: TokenCursor<'_>,
) -> Result<(List<i128>, TokenCursor<'_>), ReadError>
    ensures { Gives result (read_magnitudes cursor.entry.budget cursor.entry.rest.now) }
{
    items(
        alloc,
        &RESERVED,
        &[NUMBER],
        cursor,
        |place| magnitude(place),
    )
}

/// Numbers without a sign, in brackets.
pub(crate) fn factors(
    alloc: Global,
    cursor: TokenCursor<'_>,
) -> Result<(List<i128>, TokenCursor<'_>), ReadError>
    ensures { Gives result (read_factors cursor.entry.budget cursor.entry.rest.now) }
{
    let inner = cursor.mark(MarkKind::OpenBracket, 0)?;
    let (numbers, end) = magnitudes(alloc, inner)?;
    Ok((numbers, end.mark(MarkKind::CloseBracket, 0)?))
}
