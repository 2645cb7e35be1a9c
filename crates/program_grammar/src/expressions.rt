//! Expressions. The depth begins one above the budget. Each function goes one deeper only behind a
//! token that weighs something, so it never runs out before the budget does.

ghost use Rattle.std.specs.Prelude.{◌≡◌, [], ◌∷◌, IfOk, true};
ghost use Rattle.grammar_rules.specs.Gives.{Gives};
ghost use Rattle.program_grammar.specs.declared.tree.Expr.TheVariants as form;
ghost use Rattle.program_grammar.specs.Values as value;
ghost use Rattle.program_grammar.specs.Words.{class};
ghost use Rattle.program_grammar.specs.Readers.{read_access, read_index, read_in_parentheses, read_call, read_branch, read_branches, read_cases, read_reduction, read_operand, read_primary, read_negated, read_unary, read_factor, read_product, read_summand, read_sum, read_restricted, read_expr_body, read_expr};

use crate::domains::{restriction, restriction_of_rows};
use crate::sides::{affine, indices, rows_in_brackets};
use crate::words::{AND, CASE, MAX, MIN, OR, XOR, fold, function, name, sees, sign};
use crate::{Branch, Chain, Expr, Operator};
use az_lin::List;
use az_text::MarkKind;
use grammar_rules::classes::{
    MINUS, NAME, NUMBER, OPEN_BRACE, OPEN_BRACKET, OPEN_PAREN, PLUS, STAR,
};
use grammar_rules::{ReadError, Term, TokenCursor};
use sqlite_items::{Boxed, Items};
use std::alloc::{AllocError, Global};

fn binary(alloc: Global, op: Operator, left: Expr, right: Expr) -> Result<Expr, AllocError>
    ensures { IfOk result (λ e. e ≡ form.Binary op left right) }
{
    let left = Boxed::new(alloc, left)?;
    Ok(Expr::Binary(op, left, Boxed::new(alloc, right)?))
}

fn negation(alloc: Global, body: Expr) -> Result<Expr, AllocError>
    ensures { IfOk result (λ e. e ≡ form.Negation body) }
{
    Ok(Expr::Negation(Boxed::new(alloc, body)?))
}

/// A case with one branch.
fn restricted(alloc: Global, disjuncts: List<List<Chain>>, body: Expr) -> Result<Expr, AllocError>
    ensures { IfOk result (λ e. e ≡ value.restricted disjuncts body) }
{
    let mut branches = Items::new(alloc);
    branches.push(Branch { disjuncts, body })?;
    Ok(Expr::Cases(branches))
}

fn access(alloc: Global, cursor: TokenCursor<'_>) -> Result<(Expr, TokenCursor<'_>), ReadError>
    ensures { Gives result (read_access cursor.entry.budget cursor.entry.rest.now) }
{
    let (name, end) = name(alloc, cursor, 1)?;
    if sees(end, &[OPEN_BRACKET]) {
        let (rows, end) = rows_in_brackets(alloc, end)?;
        return Ok((Expr::Access(name, rows), end));
    }
    let mut terms = List::new(alloc);
    let term = Term {
        negative: false,
        factor: 1,
        name: Some(name),
    };
    match terms.push(term) {
        Ok(()) => Ok((Expr::Index(terms), end)),
        Err(_) => Err(ReadError::Memory),
    }
}

fn index(alloc: Global, cursor: TokenCursor<'_>) -> Result<(Expr, TokenCursor<'_>), ReadError>
    ensures { Gives result (read_index cursor.entry.budget cursor.entry.rest.now) }
{
    let inner = cursor.mark(MarkKind::OpenBracket, 1)?;
    let (terms, end) = affine(alloc, inner)?;
    Ok((Expr::Index(terms), end.mark(MarkKind::CloseBracket, 0)?))
}

#[cycle(expressions)]
fn in_parentheses(
    alloc: Global,
    cursor: TokenCursor<'_>,
    depth: u64,
) -> Result<(Expr, TokenCursor<'_>), ReadError>
    ensures { Gives result (read_in_parentheses (read_expr depth) cursor.entry.budget cursor.entry.rest.now) }
{
    let inner = cursor.mark(MarkKind::OpenParen, 1)?;
    let (body, end) = expr(alloc, inner, depth)?;
    Ok((body, end.mark(MarkKind::CloseParen, 0)?))
}

#[cycle(expressions)]
fn call(
    alloc: Global,
    cursor: TokenCursor<'_>,
    depth: u64,
) -> Result<(Expr, TokenCursor<'_>), ReadError>
    ensures { Gives result (read_call (read_expr depth) cursor.entry.budget cursor.entry.rest.now) }
{
    let (op, next) = function(cursor)?;
    let next = next.mark(MarkKind::OpenParen, 1)?;
    let (left, next) = expr(alloc, next, depth)?;
    let next = next.mark(MarkKind::Comma, 0)?;
    let (right, next) = expr(alloc, next, depth)?;
    let end = next.mark(MarkKind::CloseParen, 0)?;
    Ok((binary(alloc, op, left, right)?, end))
}

#[cycle(expressions)]
fn branch(
    alloc: Global,
    cursor: TokenCursor<'_>,
    depth: u64,
) -> Result<(Branch, TokenCursor<'_>), ReadError>
    ensures { Gives result (read_branch (read_expr depth) cursor.entry.budget cursor.entry.rest.now) }
{
    let (disjuncts, next) = restriction(alloc, 0, cursor)?;
    let next = next.mark(MarkKind::Colon, 0)?;
    let (body, next) = expr(alloc, next, depth)?;
    let end = next.mark(MarkKind::Semicolon, 0)?;
    Ok((Branch { disjuncts, body }, end))
}

#[cycle(expressions)]
fn branches(
    alloc: Global,
    cursor: TokenCursor<'_>,
    depth: u64,
) -> Result<(Items<Branch>, TokenCursor<'_>), ReadError>
    ensures { Gives result (read_branches (read_expr depth) cursor.entry.budget cursor.entry.rest.now) }
{
    let (first, mut place) = branch(alloc, cursor, depth)?;
    let mut items = Vec::new(alloc);
    items.push(first)?;
    'members: while sees(place, &[OPEN_BRACE]) {
        let (next, end) = branch(alloc, place, depth)?;
        items.push(next)?;
        place = end;
    }
    Ok((Items::from_vec(items), place))
}

#[cycle(expressions)]
fn cases(
    alloc: Global,
    cursor: TokenCursor<'_>,
    depth: u64,
) -> Result<(Expr, TokenCursor<'_>), ReadError>
    ensures { Gives result (read_cases (read_expr depth) cursor.entry.budget cursor.entry.rest.now) }
{
    let inner = cursor.keyword("case", 1)?;
    let (branches, end) = branches(alloc, inner, depth)?;
    Ok((Expr::Cases(branches), end.keyword("esac", 0)?))
}

#[cycle(expressions)]
fn reduction(
    alloc: Global,
    cursor: TokenCursor<'_>,
    depth: u64,
) -> Result<(Expr, TokenCursor<'_>), ReadError>
    ensures { Gives result (read_reduction (read_expr depth) cursor.entry.budget cursor.entry.rest.now) }
{
    let next = cursor.keyword("reduce", 1)?;
    let next = next.mark(MarkKind::OpenParen, 1)?;
    let (op, next) = fold(next)?;
    let next = next.mark(MarkKind::Comma, 0)?;
    let (names, next) = indices(alloc, next)?;
    let next = next.mark(MarkKind::Comma, 0)?;
    let (domain, next) = restriction_of_rows(alloc, next)?;
    let next = next.mark(MarkKind::Colon, 0)?;
    let (body, next) = expr(alloc, next, depth)?;
    let end = next.mark(MarkKind::CloseParen, 0)?;
    let body = Boxed::new(alloc, body)?;
    Ok((Expr::Reduction(op, names, domain, body), end))
}

#[cycle(expressions)]
fn operand(
    alloc: Global,
    cursor: TokenCursor<'_>,
    depth: u64,
) -> Result<(Expr, TokenCursor<'_>), ReadError>
    ensures { Gives result (read_operand (read_expr depth) cursor.entry.budget cursor.entry.rest.now) }
{
    if sees(cursor, &[NAME]) {
        return access(alloc, cursor);
    }
    if sees(cursor, &[OPEN_BRACKET]) {
        return index(alloc, cursor);
    }
    if sees(cursor, &[OPEN_PAREN]) {
        return in_parentheses(alloc, cursor, depth);
    }
    if sees(cursor, &[MAX, MIN, AND, OR, XOR]) {
        return call(alloc, cursor, depth);
    }
    if sees(cursor, &[CASE]) {
        return cases(alloc, cursor, depth);
    }
    reduction(alloc, cursor, depth)
}

#[cycle(expressions)]
fn primary(
    alloc: Global,
    cursor: TokenCursor<'_>,
    depth: u64,
) -> Result<(Expr, TokenCursor<'_>), ReadError>
    ensures { Gives result (read_primary (read_expr depth) cursor.entry.budget cursor.entry.rest.now) }
{
    if !sees(cursor, &[NUMBER]) {
        return operand(alloc, cursor, depth);
    }
    let (number, end) = cursor.number(1)?;
    Ok((Expr::Constant(false, number), end))
}

/// What stands behind a minus.
#[cycle(expressions)]
fn negated(
    alloc: Global,
    cursor: TokenCursor<'_>,
    depth: u64,
) -> Result<(Expr, TokenCursor<'_>), ReadError>
    ensures { Gives result (read_negated (read_expr depth) cursor.entry.budget cursor.entry.rest.now) }
{
    if sees(cursor, &[NUMBER]) {
        let (number, end) = cursor.number(0)?;
        return Ok((Expr::Constant(true, number), end));
    }
    let (body, end) = operand(alloc, cursor, depth)?;
    Ok((negation(alloc, body)?, end))
}

#[cycle(expressions)]
fn unary(
    alloc: Global,
    cursor: TokenCursor<'_>,
    depth: u64,
) -> Result<(Expr, TokenCursor<'_>), ReadError>
    ensures { Gives result (read_unary (read_expr depth) cursor.entry.budget cursor.entry.rest.now) }
{
    if !sees(cursor, &[MINUS]) {
        return primary(alloc, cursor, depth);
    }
    let next = cursor.mark(MarkKind::Minus, 1)?;
    negated(alloc, next, depth)
}

#[cycle(expressions)]
fn factor(
    alloc: Global,
    cursor: TokenCursor<'_>,
    depth: u64,
) -> Result<(Expr, TokenCursor<'_>), ReadError>
    ensures { Gives result (read_factor (read_expr depth) cursor.entry.budget cursor.entry.rest.now) }
{
    let next = cursor.mark(MarkKind::Star, 1)?;
    unary(alloc, next, depth)
}

#[cycle(expressions)]
fn product(
    alloc: Global,
    cursor: TokenCursor<'_>,
    depth: u64,
) -> Result<(Expr, TokenCursor<'_>), ReadError>
    ensures { Gives result (read_product (read_expr depth) cursor.entry.budget cursor.entry.rest.now) }
{
    let (mut value, mut place) = unary(alloc, cursor, depth)?;
    'factors: while sees(place, &[STAR]) {
        let (next, end) = factor(alloc, place, depth)?;
        value = binary(alloc, Operator::Multiply, value, next)?;
        place = end;
    }
    Ok((value, place))
}

#[cycle(expressions)]
fn summand(
    alloc: Global,
    cursor: TokenCursor<'_>,
    depth: u64,
) -> Result<((bool, Expr), TokenCursor<'_>), ReadError>
    ensures { Gives result (read_summand (read_expr depth) cursor.entry.budget cursor.entry.rest.now) }
{
    let (negative, next) = sign(cursor, 1)?;
    let (value, end) = product(alloc, next, depth)?;
    Ok(((negative, value), end))
}

/// The operator of a sign between two operands.
fn signed(negative: bool) -> Operator
    ensures { result ≡ value.operator_of negative }
{
    if negative {
        Operator::Subtract
    } else {
        Operator::Add
    }
}

#[cycle(expressions)]
fn sum(
    alloc: Global,
    cursor: TokenCursor<'_>,
    depth: u64,
) -> Result<(Expr, TokenCursor<'_>), ReadError>
    ensures { Gives result (read_sum (read_expr depth) cursor.entry.budget cursor.entry.rest.now) }
{
    let (mut value, mut place) = product(alloc, cursor, depth)?;
    'summands: while sees(place, &[PLUS, MINUS]) {
        let ((negative, next), end) = summand(alloc, place, depth)?;
        value = binary(alloc, signed(negative), value, next)?;
        place = end;
    }
    Ok((value, place))
}

#[cycle(expressions)]
fn expr_body(
    alloc: Global,
    cursor: TokenCursor<'_>,
    depth: u64,
) -> Result<(Expr, TokenCursor<'_>), ReadError>
    ensures { Gives result (read_expr_body (read_expr depth) cursor.entry.budget cursor.entry.rest.now) }
{
    if !sees(cursor, &[OPEN_BRACE]) {
        return sum(alloc, cursor, depth);
    }
    let (disjuncts, next) = restriction(alloc, 1, cursor)?;
    let next = next.mark(MarkKind::Colon, 0)?;
    let (body, end) = sum(alloc, next, depth)?;
    Ok((restricted(alloc, disjuncts, body)?, end))
}

#[cycle(expressions)]
pub(crate) fn expr(
    alloc: Global,
    cursor: TokenCursor<'_>,
    depth: u64,
) -> Result<(Expr, TokenCursor<'_>), ReadError>
    ensures { Gives result (read_expr depth cursor.entry.budget cursor.entry.rest.now) }
{
    if depth == 0 {
        return Err(cursor.misplaced());
    }
    expr_body(alloc, cursor, depth - 1)
}
