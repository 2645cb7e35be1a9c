//! Lists of names and affine sides, with the words that are no names in programs.

ghost use Rattle.grammar_rules.specs.Gives.{Gives};
ghost use Rattle.program_grammar.specs.Readers.{read_names, read_indices, read_affine, read_rows_in_brackets};

use crate::words::RESERVED;
use az_lin::{List, Name};
use grammar_rules::{ReadError, Term, TokenCursor};
use std::alloc::Global;

pub(crate) fn names(
    alloc: Global,
    cursor: TokenCursor<'_>,
) -> Result<(List<Name>, TokenCursor<'_>), ReadError>
    ensures { Gives result (read_names cursor.entry.budget cursor.entry.rest.now) }
{
    grammar_rules::names(alloc, &RESERVED, cursor)
}

/// Names in brackets.
pub(crate) fn indices(
    alloc: Global,
    cursor: TokenCursor<'_>,
) -> Result<(List<Name>, TokenCursor<'_>), ReadError>
    ensures { Gives result (read_indices cursor.entry.budget cursor.entry.rest.now) }
{
    grammar_rules::indices(alloc, &RESERVED, cursor)
}

pub(crate) fn affine(
    alloc: Global,
    cursor: TokenCursor<'_>,
) -> Result<(List<Term>, TokenCursor<'_>), ReadError>
    ensures { Gives result (read_affine cursor.entry.budget cursor.entry.rest.now) }
{
    grammar_rules::affine(alloc, &RESERVED, cursor)
}

/// Affine sides in brackets.
pub(crate) fn rows_in_brackets(
    alloc: Global,
    cursor: TokenCursor<'_>,
) -> Result<(List<List<Term>>, TokenCursor<'_>), ReadError>
    ensures { Gives result (read_rows_in_brackets cursor.entry.budget cursor.entry.rest.now) }
{
    grammar_rules::rows_in_brackets(alloc, &RESERVED, cursor)
}
