//! Sums of whole numbers, with values modulo 2^128.

ghost use Rattle.std.specs.Prelude.{◌≡◌, ◌%◌, ◌^◌, ◌-◌, ◌+◌, [], ◌∷◌, IsErrOf};
ghost use Rattle.grammar_rules.specs.declared.fault.ReadError.TheVariants.{Memory};
ghost use Rattle.grammar_rules.specs.Gives.{GivesAlways, IsReadBy};
ghost use Rattle.grammar_rules.specs.Readers.{read_token, sees};
ghost use Rattle.grammar_rules_tests.specs.Sums.{class, sign_of, signed, sum, read_sum, read_product, read_unary, read_primary, read_term, read_factor, read_sum_body};

use az_text::{MarkKind, Token, TokenKind};
use grammar_rules::{Cursor, ReadError, TokenCursor, finish};

#[derive(Clone, Copy)]
pub enum Sign {
    Add,
    Subtract,
}

fn sees_number(cursor: TokenCursor<'_>) -> bool
    ensures { result ≡ sees class (23 ∷ []) cursor.entry.rest.now }
{
    matches!(
        cursor.rest.first(),
        Some(Token {
            kind: TokenKind::Number(_),
            ..
        })
    )
}

fn sees_minus(cursor: TokenCursor<'_>) -> bool
    ensures { result ≡ sees class (20 ∷ []) cursor.entry.rest.now }
{
    matches!(
        cursor.rest.first(),
        Some(Token {
            kind: TokenKind::Mark(MarkKind::Minus),
            ..
        })
    )
}

fn sees_star(cursor: TokenCursor<'_>) -> bool
    ensures { result ≡ sees class (21 ∷ []) cursor.entry.rest.now }
{
    matches!(
        cursor.rest.first(),
        Some(Token {
            kind: TokenKind::Mark(MarkKind::Star),
            ..
        })
    )
}

fn sees_sign(cursor: TokenCursor<'_>) -> bool
    ensures { result ≡ sees class (19 ∷ 20 ∷ []) cursor.entry.rest.now }
{
    matches!(
        cursor.rest.first(),
        Some(Token {
            kind: TokenKind::Mark(MarkKind::Plus | MarkKind::Minus),
            ..
        })
    )
}

fn take_sign(cursor: TokenCursor<'_>) -> Result<(Sign, TokenCursor<'_>), ReadError>
    ensures { GivesAlways result (read_token sign_of 1 cursor.entry.budget cursor.entry.rest.now) }
{
    match cursor.rest.split_first() {
        Some(
            (
                Token {
                    kind: TokenKind::Mark(MarkKind::Plus),
                    ..
                },
                rest,
            ),
        ) => Ok((Sign::Add, cursor.past(1, rest)?)),
        Some(
            (
                Token {
                    kind: TokenKind::Mark(MarkKind::Minus),
                    ..
                },
                rest,
            ),
        ) => Ok((Sign::Subtract, cursor.past(1, rest)?)),
        _ => Err(cursor.misplaced()),
    }
}

fn apply(value: u128, sign: Sign, term: u128) -> u128
    ensures { result ≡ signed value (sign, term) }
{
    match sign {
        Sign::Add => value.wrapping_add(term),
        Sign::Subtract => value.wrapping_sub(term),
    }
}

/// The value of a sum of at most this weight.
pub fn read_sum(tokens: &[Token], limit: u32) -> Result<u128, ReadError>
    ensures read { IsReadBy sum limit tokens.now result }
    ensures memory { IsErrOf result Memory → ⊥ }
{
    finish(sum(Cursor::new(tokens, limit), u64::from(limit) + 1))
}

#[cycle(sums)]
fn primary(cursor: TokenCursor<'_>, depth: u64) -> Result<(u128, TokenCursor<'_>), ReadError>
    ensures { GivesAlways result (read_primary (read_sum depth) cursor.entry.budget cursor.entry.rest.now) }
{
    if sees_number(cursor) {
        return cursor.number(1);
    }
    let inner = cursor.mark(MarkKind::OpenParen, 1)?;
    let (value, end) = sum(inner, depth)?;
    Ok((value, end.mark(MarkKind::CloseParen, 0)?))
}

#[cycle(sums)]
fn unary(cursor: TokenCursor<'_>, depth: u64) -> Result<(u128, TokenCursor<'_>), ReadError>
    ensures { GivesAlways result (read_unary (read_sum depth) cursor.entry.budget cursor.entry.rest.now) }
{
    if !sees_minus(cursor) {
        return primary(cursor, depth);
    }
    let operand = cursor.mark(MarkKind::Minus, 1)?;
    let (value, end) = primary(operand, depth)?;
    Ok((0u128.wrapping_sub(value), end))
}

#[cycle(sums)]
fn factor(cursor: TokenCursor<'_>, depth: u64) -> Result<(u128, TokenCursor<'_>), ReadError>
    ensures { GivesAlways result (read_factor (read_sum depth) cursor.entry.budget cursor.entry.rest.now) }
{
    let operand = cursor.mark(MarkKind::Star, 1)?;
    unary(operand, depth)
}

#[cycle(sums)]
fn product(cursor: TokenCursor<'_>, depth: u64) -> Result<(u128, TokenCursor<'_>), ReadError>
    ensures { GivesAlways result (read_product (read_sum depth) cursor.entry.budget cursor.entry.rest.now) }
{
    let (mut value, mut place) = unary(cursor, depth)?;
    'factors: while sees_star(place) {
        let (operand, end) = factor(place, depth)?;
        value = value.wrapping_mul(operand);
        place = end;
    }
    Ok((value, place))
}

#[cycle(sums)]
fn term(cursor: TokenCursor<'_>, depth: u64) -> Result<((Sign, u128), TokenCursor<'_>), ReadError>
    ensures { GivesAlways result (read_term (read_sum depth) cursor.entry.budget cursor.entry.rest.now) }
{
    let (sign, operand) = take_sign(cursor)?;
    let (value, end) = product(operand, depth)?;
    Ok(((sign, value), end))
}

#[cycle(sums)]
fn terms(cursor: TokenCursor<'_>, depth: u64) -> Result<(u128, TokenCursor<'_>), ReadError>
    ensures { GivesAlways result (read_sum_body (read_sum depth) cursor.entry.budget cursor.entry.rest.now) }
{
    let (mut value, mut place) = product(cursor, depth)?;
    'terms: while sees_sign(place) {
        let ((sign, operand), end) = term(place, depth)?;
        value = apply(value, sign, operand);
        place = end;
    }
    Ok((value, place))
}

#[cycle(sums)]
fn sum(cursor: TokenCursor<'_>, depth: u64) -> Result<(u128, TokenCursor<'_>), ReadError>
    ensures { GivesAlways result (read_sum depth cursor.entry.budget cursor.entry.rest.now) }
{
    if depth == 0 {
        return Err(cursor.misplaced());
    }
    terms(cursor, depth - 1)
}
