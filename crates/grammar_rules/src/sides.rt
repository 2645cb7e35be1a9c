//! Affine sides.

ghost use Rattle.std.specs.Prelude.{◌≡◌, ◌+◌, ◌<◌, ◌^◌, length};
ghost use Rattle.grammar_rules.specs.Gives.{Gives, GivesAlways};
ghost use Rattle.grammar_rules.specs.Readers.{read_mapped};
ghost use Rattle.grammar_rules.specs.SideReaders.{read_multiplied, read_scaled, read_signed_term, read_first_term, read_affine, read_next_affine, read_some_affines, read_affines, read_rows_in_brackets};
ghost use Rattle.grammar_rules.specs.Sides.{signed};
ghost use Rattle.grammar_rules.specs.TokenRules.{words, read_one_of, signs};

use crate::classes::{COMMA, MINUS, NAME, NUMBER, PLUS, STAR};
use crate::{ReadError, Term, TokenCursor, members, name};
use az_lin::{List, Name};
use az_text::MarkKind;
use std::alloc::Global;

const SIGNS: [(u32, bool); 2] = [(PLUS, false), (MINUS, true)];

/// A sign: whether it is a minus.
pub fn sign<'a>(
    reserved: &[&str],
    cursor: TokenCursor<'a>,
    weight: u32,
) -> Result<(bool, TokenCursor<'a>), ReadError>
    requires { 26 + length reserved.now < 2 ^ 32 }
    ensures { GivesAlways result (read_one_of (words reserved.now) signs weight cursor.entry.budget cursor.entry.rest.now) }
{
    cursor.one_of(reserved, &SIGNS, weight)
}

/// The name behind a factor, with a star before it or without.
fn multiplied<'a>(
    alloc: Global,
    reserved: &[&str],
    cursor: TokenCursor<'a>,
) -> Result<(Name, TokenCursor<'a>), ReadError>
    requires { 26 + length reserved.now < 2 ^ 32 }
    ensures { Gives result (read_multiplied (words reserved.now) cursor.entry.budget cursor.entry.rest.now) }
{
    if !cursor.sees(reserved, &[STAR]) {
        return name(alloc, reserved, cursor, 0);
    }
    let next = cursor.mark(MarkKind::Star, 0)?;
    name(alloc, reserved, next, 0)
}

type Scaled = (u128, Option<Name>);

/// A factor, a name or both.
fn scaled<'a>(
    alloc: Global,
    reserved: &[&str],
    cursor: TokenCursor<'a>,
) -> Result<(Scaled, TokenCursor<'a>), ReadError>
    requires { 26 + length reserved.now < 2 ^ 32 }
    ensures { Gives result (read_scaled (words reserved.now) cursor.entry.budget cursor.entry.rest.now) }
{
    if !cursor.sees(reserved, &[NUMBER]) {
        let (name, end) = name(alloc, reserved, cursor, 0)?;
        return Ok(((1, Some(name)), end));
    }
    let (factor, end) = cursor.number(0)?;
    if !end.sees(reserved, &[STAR, NAME]) {
        return Ok(((factor, None), end));
    }
    let (name, end) = multiplied(alloc, reserved, end)?;
    Ok(((factor, Some(name)), end))
}

fn unsigned_term<'a>(
    alloc: Global,
    reserved: &[&str],
    negative: bool,
    cursor: TokenCursor<'a>,
) -> Result<(Term, TokenCursor<'a>), ReadError>
    requires { 26 + length reserved.now < 2 ^ 32 }
    ensures { Gives result (read_mapped (signed negative) (read_scaled (words reserved.now)) cursor.entry.budget cursor.entry.rest.now) }
{
    let ((factor, name), end) = scaled(alloc, reserved, cursor)?;
    Ok((
        Term {
            negative,
            factor,
            name,
        },
        end,
    ))
}

fn signed_term<'a>(
    alloc: Global,
    reserved: &[&str],
    cursor: TokenCursor<'a>,
) -> Result<(Term, TokenCursor<'a>), ReadError>
    requires { 26 + length reserved.now < 2 ^ 32 }
    ensures { Gives result (read_signed_term (words reserved.now) cursor.entry.budget cursor.entry.rest.now) }
{
    let (negative, next) = sign(reserved, cursor, 0)?;
    unsigned_term(alloc, reserved, negative, next)
}

fn first_term<'a>(
    alloc: Global,
    reserved: &[&str],
    cursor: TokenCursor<'a>,
) -> Result<(Term, TokenCursor<'a>), ReadError>
    requires { 26 + length reserved.now < 2 ^ 32 }
    ensures { Gives result (read_first_term (words reserved.now) cursor.entry.budget cursor.entry.rest.now) }
{
    if cursor.sees(reserved, &[PLUS, MINUS]) {
        return signed_term(alloc, reserved, cursor);
    }
    unsigned_term(alloc, reserved, false, cursor)
}

/// An affine side: terms with signs between, and maybe one before.
pub fn affine<'a>(
    alloc: Global,
    reserved: &[&str],
    cursor: TokenCursor<'a>,
) -> Result<(List<Term>, TokenCursor<'a>), ReadError>
    requires { 26 + length reserved.now < 2 ^ 32 }
    ensures { Gives result (read_affine (words reserved.now) cursor.entry.budget cursor.entry.rest.now) }
{
    let (first, place) = first_term(alloc, reserved, cursor)?;
    members(alloc, reserved, &[PLUS, MINUS], first, place, |place| {
        signed_term(alloc, reserved, place)
    })
}

fn next_affine<'a>(
    alloc: Global,
    reserved: &[&str],
    cursor: TokenCursor<'a>,
) -> Result<(List<Term>, TokenCursor<'a>), ReadError>
    requires { 26 + length reserved.now < 2 ^ 32 }
    ensures { Gives result (read_next_affine (words reserved.now) cursor.entry.budget cursor.entry.rest.now) }
{
    let next = cursor.mark(MarkKind::Comma, 0)?;
    affine(alloc, reserved, next)
}

fn some_affines<'a>(
    alloc: Global,
    reserved: &[&str],
    cursor: TokenCursor<'a>,
) -> Result<(List<List<Term>>, TokenCursor<'a>), ReadError>
    requires { 26 + length reserved.now < 2 ^ 32 }
    ensures { Gives result (read_some_affines (words reserved.now) cursor.entry.budget cursor.entry.rest.now) }
{
    let (first, place) = affine(alloc, reserved, cursor)?;
    members(alloc, reserved, &[COMMA], first, place, |place| {
        next_affine(alloc, reserved, place)
    })
}

/// Affine sides with commas between, or none.
pub fn affines<'a>(
    alloc: Global,
    reserved: &[&str],
    cursor: TokenCursor<'a>,
) -> Result<(List<List<Term>>, TokenCursor<'a>), ReadError>
    requires { 26 + length reserved.now < 2 ^ 32 }
    ensures { Gives result (read_affines (words reserved.now) cursor.entry.budget cursor.entry.rest.now) }
{
    if cursor.sees(reserved, &[PLUS, MINUS, NUMBER, NAME]) {
        return some_affines(alloc, reserved, cursor);
    }
    Ok((List::new(alloc), cursor))
}

/// Affine sides in brackets, with commas between.
pub fn rows_in_brackets<'a>(
    alloc: Global,
    reserved: &[&str],
    cursor: TokenCursor<'a>,
) -> Result<(List<List<Term>>, TokenCursor<'a>), ReadError>
    requires { 26 + length reserved.now < 2 ^ 32 }
    ensures { Gives result (read_rows_in_brackets (words reserved.now) cursor.entry.budget cursor.entry.rest.now) }
{
    let inner = cursor.mark(MarkKind::OpenBracket, 0)?;
    let (sides, end) = affines(alloc, reserved, inner)?;
    Ok((sides, end.mark(MarkKind::CloseBracket, 0)?))
}
