//! The declarations of inputs, outputs and locals.

ghost use Rattle.std.specs.Prelude.{[], ◌∷◌};
ghost use Rattle.grammar_rules.specs.Gives.{Gives, Passes};
ghost use Rattle.program_grammar.specs.Words.{class};
ghost use Rattle.program_grammar.specs.Readers.{read_width_word, read_declaration, read_declarations, read_section};

use crate::Declaration;
use crate::domains::domain;
use crate::words::{INT, LONG, list, name, sees};
use az_lin::List;
use az_text::MarkKind;
use grammar_rules::classes::NAME;
use grammar_rules::{ReadError, TokenCursor};
use std::alloc::Global;

/// Past `int` or `long`, if one is there.
fn width_word(cursor: TokenCursor<'_>) -> Result<TokenCursor<'_>, ReadError>
    ensures { Passes result (read_width_word cursor.entry.budget cursor.entry.rest.now) }
{
    if !sees(cursor, &[INT, LONG]) {
        return Ok(cursor);
    }
    if sees(cursor, &[INT]) {
        return cursor.keyword("int", 0);
    }
    cursor.keyword("long", 0)
}

fn declaration(
    alloc: Global,
    cursor: TokenCursor<'_>,
) -> Result<(Declaration, TokenCursor<'_>), ReadError>
    ensures { Gives result (read_declaration cursor.entry.budget cursor.entry.rest.now) }
{
    let next = width_word(cursor)?;
    let (name, next) = name(alloc, next, 0)?;
    let ((indices, disjuncts), end) = domain(alloc, next)?;
    let end = end.mark(MarkKind::Semicolon, 0)?;
    Ok((
        Declaration {
            name,
            indices,
            disjuncts,
        },
        end,
    ))
}

fn declarations(
    alloc: Global,
    cursor: TokenCursor<'_>,
) -> Result<(List<Declaration>, TokenCursor<'_>), ReadError>
    ensures { Gives result (read_declarations cursor.entry.budget cursor.entry.rest.now) }
{
    let (first, place) = declaration(alloc, cursor)?;
    list(alloc, &[NAME, INT, LONG], first, place, |place| {
        declaration(alloc, place)
    })
}

/// The declarations behind this word, whose class is given; none where another word is there.
pub(crate) fn section<'a>(
    alloc: Global,
    class: u32,
    word: &str,
    cursor: TokenCursor<'a>,
) -> Result<(List<Declaration>, TokenCursor<'a>), ReadError>
    ensures { Gives result (read_section class word.now cursor.entry.budget cursor.entry.rest.now) }
{
    if !sees(cursor, &[class]) {
        return Ok((List::new(alloc), cursor));
    }
    let next = cursor.keyword(word, 0)?;
    declarations(alloc, next)
}
