//! Chains, domains and declarations.

ghost use Rattle.std.specs.Prelude.{[], ◌∷◌, codes};
ghost use Rattle.grammar_rules.specs.Gives.{Gives, Passes};
ghost use Rattle.grammar_rules.specs.Readers.{read_list_of, read_mapped, read_optional};
ghost use Rattle.az_text.specs.declared.mark.MarkKind.TheVariants.{AndAnd};
ghost use Rattle.grammar_rules.specs.Tokens.{mark_class};
ghost use Rattle.program_grammar.specs.Words.{class, relation_classes};
ghost use Rattle.program_grammar.specs.Readers.{read_link, read_chain, read_next_chain, read_rows, read_next_rows, read_disjuncts, read_behind_bar, read_domain, read_restriction, read_width_word, read_declaration, read_declarations, read_section};

use crate::sides::{affine, names};
use crate::words::{list, relation, sees};
use crate::{Chain, Declaration, Link};
use az_lin::{List, Name};
use az_text::MarkKind;
use grammar_rules::classes::{
    AND_AND, BAR_BAR, EQUAL, EQUAL_EQUAL, GREATER, GREATER_EQUAL, LESS, LESS_EQUAL, MINUS, NAME,
    NUMBER, PLUS,
};
use grammar_rules::{ReadError, TokenCursor};
use std::alloc::Global;

fn link(alloc: Global, cursor: TokenCursor<'_>) -> Result<(Link, TokenCursor<'_>), ReadError>
    ensures { Gives result (read_link cursor.entry.budget cursor.entry.rest.now) }
{
    let (relation, next) = relation(cursor)?;
    let (side, end) = affine(alloc, next)?;
    Ok((Link { relation, side }, end))
}

fn links(alloc: Global, cursor: TokenCursor<'_>) -> Result<(List<Link>, TokenCursor<'_>), ReadError>
    ensures { Gives result (read_list_of class relation_classes read_link read_link cursor.entry.budget cursor.entry.rest.now) }
{
    let (first, place) = link(alloc, cursor)?;
    list(
        alloc,
        &[EQUAL, EQUAL_EQUAL, LESS_EQUAL, LESS, GREATER_EQUAL, GREATER],
        first,
        place,
        |place| link(alloc, place),
    )
}

fn chain(alloc: Global, cursor: TokenCursor<'_>) -> Result<(Chain, TokenCursor<'_>), ReadError>
    ensures { Gives result (read_chain cursor.entry.budget cursor.entry.rest.now) }
{
    let (first, next) = affine(alloc, cursor)?;
    let (links, end) = links(alloc, next)?;
    Ok((Chain { first, links }, end))
}

fn next_chain(alloc: Global, cursor: TokenCursor<'_>) -> Result<(Chain, TokenCursor<'_>), ReadError>
    ensures { Gives result (read_next_chain cursor.entry.budget cursor.entry.rest.now) }
{
    let next = cursor.mark(MarkKind::AndAnd, 0)?;
    chain(alloc, next)
}

fn some_chains(
    alloc: Global,
    cursor: TokenCursor<'_>,
) -> Result<(List<Chain>, TokenCursor<'_>), ReadError>
    ensures { Gives result (read_list_of class (mark_class AndAnd ∷ []) read_chain read_next_chain cursor.entry.budget cursor.entry.rest.now) }
{
    let (first, place) = chain(alloc, cursor)?;
    list(
        alloc,
        &[AND_AND],
        first,
        place,
        |place| next_chain(alloc, place),
    )
}

fn rows(alloc: Global, cursor: TokenCursor<'_>) -> Result<(List<Chain>, TokenCursor<'_>), ReadError>
    ensures { Gives result (read_rows cursor.entry.budget cursor.entry.rest.now) }
{
    if sees(cursor, &[PLUS, MINUS, NUMBER, NAME]) {
        return some_chains(alloc, cursor);
    }
    Ok((List::new(alloc), cursor))
}

fn next_rows(
    alloc: Global,
    cursor: TokenCursor<'_>,
) -> Result<(List<Chain>, TokenCursor<'_>), ReadError>
    ensures { Gives result (read_next_rows cursor.entry.budget cursor.entry.rest.now) }
{
    let next = cursor.mark(MarkKind::BarBar, 0)?;
    rows(alloc, next)
}

fn disjuncts(
    alloc: Global,
    cursor: TokenCursor<'_>,
) -> Result<(List<List<Chain>>, TokenCursor<'_>), ReadError>
    ensures { Gives result (read_disjuncts cursor.entry.budget cursor.entry.rest.now) }
{
    let (first, place) = rows(alloc, cursor)?;
    list(
        alloc,
        &[BAR_BAR],
        first,
        place,
        |place| next_rows(alloc, place),
    )
}

fn rows_behind_bar(
    alloc: Global,
    cursor: TokenCursor<'_>,
) -> Result<(List<Chain>, TokenCursor<'_>), ReadError>
    ensures { Gives result (read_behind_bar read_rows cursor.entry.budget cursor.entry.rest.now) }
{
    let inner = cursor.mark(MarkKind::Bar, 0)?;
    let (chains, end) = rows(alloc, inner)?;
    Ok((chains, end.mark(MarkKind::CloseBrace, 0)?))
}

fn disjuncts_behind_bar(
    alloc: Global,
    cursor: TokenCursor<'_>,
) -> Result<(List<List<Chain>>, TokenCursor<'_>), ReadError>
    ensures { Gives result (read_behind_bar read_disjuncts cursor.entry.budget cursor.entry.rest.now) }
{
    let inner = cursor.mark(MarkKind::Bar, 0)?;
    let (disjuncts, end) = disjuncts(alloc, inner)?;
    Ok((disjuncts, end.mark(MarkKind::CloseBrace, 0)?))
}

/// The domain of a reduction.
pub(crate) fn restriction_of_rows(
    alloc: Global,
    cursor: TokenCursor<'_>,
) -> Result<(List<Chain>, TokenCursor<'_>), ReadError>
    ensures { Gives result (read_restriction 0 read_rows cursor.entry.budget cursor.entry.rest.now) }
{
    let inner = cursor.mark(MarkKind::OpenBrace, 0)?;
    rows_behind_bar(alloc, inner)
}

/// The domain of a branch, whose brace weighs so much.
pub(crate) fn restriction(
    alloc: Global,
    weight: u32,
    cursor: TokenCursor<'_>,
) -> Result<(List<List<Chain>>, TokenCursor<'_>), ReadError>
    ensures { Gives result (read_restriction weight read_disjuncts cursor.entry.budget cursor.entry.rest.now) }
{
    let inner = cursor.mark(MarkKind::OpenBrace, weight)?;
    disjuncts_behind_bar(alloc, inner)
}

type Named<T> = (List<Name>, List<T>);

/// The parameter domain.
pub(crate) fn domain_of_rows(
    alloc: Global,
    cursor: TokenCursor<'_>,
) -> Result<(Named<Chain>, TokenCursor<'_>), ReadError>
    ensures { Gives result (read_domain read_rows cursor.entry.budget cursor.entry.rest.now) }
{
    let inner = cursor.mark(MarkKind::OpenBrace, 0)?;
    let (names, next) = names(alloc, inner)?;
    let (chains, end) = rows_behind_bar(alloc, next)?;
    Ok(((names, chains), end))
}

pub(crate) fn domain(
    alloc: Global,
    cursor: TokenCursor<'_>,
) -> Result<(Named<List<Chain>>, TokenCursor<'_>), ReadError>
    ensures { Gives result (read_domain read_disjuncts cursor.entry.budget cursor.entry.rest.now) }
{
    let inner = cursor.mark(MarkKind::OpenBrace, 0)?;
    let (names, next) = names(alloc, inner)?;
    let (disjuncts, end) = disjuncts_behind_bar(alloc, next)?;
    Ok(((names, disjuncts), end))
}
