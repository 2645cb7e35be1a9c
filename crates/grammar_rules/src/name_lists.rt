//! Names, and lists of them.

ghost use Rattle.std.specs.Prelude.{◌+◌, ◌<◌, ◌^◌, length};
ghost use Rattle.grammar_rules.specs.Gives.{Gives};
ghost use Rattle.grammar_rules.specs.SideReaders.{read_next_name, read_some_names, read_names, read_indices};
ghost use Rattle.grammar_rules.specs.TokenRules.{words, read_name};

use crate::classes::{COMMA, NAME};
use crate::{ReadError, TokenCursor, members};
use az_lin::{List, Name};
use az_text::MarkKind;
use std::alloc::Global;

/// A word that is none of the reserved ones.
pub fn name<'a>(
    alloc: Global,
    reserved: &[&str],
    cursor: TokenCursor<'a>,
    weight: u32,
) -> Result<(Name, TokenCursor<'a>), ReadError>
    requires { 26 + length reserved.now < 2 ^ 32 }
    ensures { Gives result (read_name (words reserved.now) weight cursor.entry.budget cursor.entry.rest.now) }
{
    let (text, end) = cursor.name(reserved, weight)?;
    match Name::from_str(alloc, text) {
        Ok(name) => Ok((name, end)),
        Err(_) => Err(ReadError::Memory),
    }
}

fn next_name<'a>(
    alloc: Global,
    reserved: &[&str],
    cursor: TokenCursor<'a>,
) -> Result<(Name, TokenCursor<'a>), ReadError>
    requires { 26 + length reserved.now < 2 ^ 32 }
    ensures { Gives result (read_next_name (words reserved.now) cursor.entry.budget cursor.entry.rest.now) }
{
    let next = cursor.mark(MarkKind::Comma, 0)?;
    name(alloc, reserved, next, 0)
}

fn some_names<'a>(
    alloc: Global,
    reserved: &[&str],
    cursor: TokenCursor<'a>,
) -> Result<(List<Name>, TokenCursor<'a>), ReadError>
    requires { 26 + length reserved.now < 2 ^ 32 }
    ensures { Gives result (read_some_names (words reserved.now) cursor.entry.budget cursor.entry.rest.now) }
{
    let (first, place) = name(alloc, reserved, cursor, 0)?;
    members(alloc, reserved, &[COMMA], first, place, |place| {
        next_name(alloc, reserved, place)
    })
}

/// Names with commas between, or none.
pub fn names<'a>(
    alloc: Global,
    reserved: &[&str],
    cursor: TokenCursor<'a>,
) -> Result<(List<Name>, TokenCursor<'a>), ReadError>
    requires { 26 + length reserved.now < 2 ^ 32 }
    ensures { Gives result (read_names (words reserved.now) cursor.entry.budget cursor.entry.rest.now) }
{
    if cursor.sees(reserved, &[NAME]) {
        return some_names(alloc, reserved, cursor);
    }
    Ok((List::new(alloc), cursor))
}

/// Names in brackets.
pub fn indices<'a>(
    alloc: Global,
    reserved: &[&str],
    cursor: TokenCursor<'a>,
) -> Result<(List<Name>, TokenCursor<'a>), ReadError>
    requires { 26 + length reserved.now < 2 ^ 32 }
    ensures { Gives result (read_indices (words reserved.now) cursor.entry.budget cursor.entry.rest.now) }
{
    let inner = cursor.mark(MarkKind::OpenBracket, 0)?;
    let (names, end) = names(alloc, reserved, inner)?;
    Ok((names, end.mark(MarkKind::CloseBracket, 0)?))
}
