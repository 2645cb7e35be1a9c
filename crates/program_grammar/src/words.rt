//! Single tokens of programs.

ghost use Rattle.std.specs.Prelude.{◌≡◌};
ghost use Rattle.az_text.specs.declared.token.Token.{Token};
ghost use Rattle.grammar_rules.specs.Gives.{Gives, GivesAlways, IsReadAs};
ghost use Rattle.grammar_rules.specs.Readers.{Reader, read_onto, sees};
ghost use Rattle.grammar_rules.specs.Rules.{put_last, single};
ghost use Rattle.program_grammar.specs.Words.{class, read_name, read_one_of, signs, relations, functions, folds};

use crate::{Operator, Relation};
use az_lin::{List, Name};
use grammar_rules::classes::{
    EQUAL, EQUAL_EQUAL, FIRST_WORD, GREATER, GREATER_EQUAL, LESS, LESS_EQUAL, PLUS, STAR,
};
use grammar_rules::{ReadError, TokenCursor, members};
use std::alloc::Global;

/// The words that are no names.
pub(crate) const RESERVED: [&str; 15] = [
    "affine", "input", "output", "local", "let", "int", "long", "case", "esac", "reduce", "max",
    "min", "and", "or", "xor",
];

// The classes of reserved words, by their places among them.
pub(crate) const INPUT: u32 = FIRST_WORD + 1;

pub(crate) const OUTPUT: u32 = FIRST_WORD + 2;

pub(crate) const LOCAL: u32 = FIRST_WORD + 3;

pub(crate) const INT: u32 = FIRST_WORD + 5;

pub(crate) const LONG: u32 = FIRST_WORD + 6;

pub(crate) const CASE: u32 = FIRST_WORD + 7;

pub(crate) const MAX: u32 = FIRST_WORD + 10;

pub(crate) const MIN: u32 = FIRST_WORD + 11;

pub(crate) const AND: u32 = FIRST_WORD + 12;

pub(crate) const OR: u32 = FIRST_WORD + 13;

pub(crate) const XOR: u32 = FIRST_WORD + 14;

const RELATIONS: [(u32, Relation); 6] = [
    (LESS_EQUAL, Relation::AtMost),
    (LESS, Relation::Below),
    (GREATER_EQUAL, Relation::AtLeast),
    (GREATER, Relation::Above),
    (EQUAL, Relation::Equal),
    (EQUAL_EQUAL, Relation::Equal),
];

const FUNCTIONS: [(u32, Operator); 5] = [
    (MAX, Operator::Max),
    (MIN, Operator::Min),
    (AND, Operator::And),
    (OR, Operator::Or),
    (XOR, Operator::Xor),
];

const FOLDS: [(u32, Operator); 7] = [
    (PLUS, Operator::Add),
    (STAR, Operator::Multiply),
    (MAX, Operator::Max),
    (MIN, Operator::Min),
    (AND, Operator::And),
    (OR, Operator::Or),
    (XOR, Operator::Xor),
];

/// Whether the next token's class is in the set.
pub(crate) fn sees(cursor: TokenCursor<'_>, set: &[u32]) -> bool
    ensures { result ≡ sees class set.now cursor.entry.rest.now }
{
    cursor.sees(&RESERVED, set)
}

/// A first member, and those behind it as long as the next token's class is in the set.
pub(crate) fn list<'a, A: Drop, F: Fn(TokenCursor<'a>) -> Result<(A, TokenCursor<'a>), ReadError>>(
    alloc: Global,
    set: &[u32],
    first: A,
    start: TokenCursor<'a>,
    next: F,
) -> Result<(List<A>, TokenCursor<'a>), ReadError>
    requires { F.IsAlwaysCallable next }
    ensures { (reader : Reader Token A) → IsReadAs (F.post next) reader
        → Gives result (read_onto class set.now put_last reader (single first) start.entry.budget start.entry.rest.now) }
{
    members(alloc, &RESERVED, set, first, start, next)
}

pub(crate) fn name(
    alloc: Global,
    cursor: TokenCursor<'_>,
    weight: u32,
) -> Result<(Name, TokenCursor<'_>), ReadError>
    ensures { Gives result (read_name weight cursor.entry.budget cursor.entry.rest.now) }
{
    grammar_rules::name(alloc, &RESERVED, cursor, weight)
}

/// A sign: whether it is a minus.
pub(crate) fn sign(
    cursor: TokenCursor<'_>,
    weight: u32,
) -> Result<(bool, TokenCursor<'_>), ReadError>
    ensures { GivesAlways result (read_one_of signs weight cursor.entry.budget cursor.entry.rest.now) }
{
    grammar_rules::sign(&RESERVED, cursor, weight)
}

pub(crate) fn relation(cursor: TokenCursor<'_>) -> Result<(Relation, TokenCursor<'_>), ReadError>
    ensures { GivesAlways result (read_one_of relations 0 cursor.entry.budget cursor.entry.rest.now) }
{
    cursor.one_of(&RESERVED, &RELATIONS, 0)
}

pub(crate) fn function(cursor: TokenCursor<'_>) -> Result<(Operator, TokenCursor<'_>), ReadError>
    ensures { GivesAlways result (read_one_of functions 1 cursor.entry.budget cursor.entry.rest.now) }
{
    cursor.one_of(&RESERVED, &FUNCTIONS, 1)
}

pub(crate) fn fold(cursor: TokenCursor<'_>) -> Result<(Operator, TokenCursor<'_>), ReadError>
    ensures { GivesAlways result (read_one_of folds 0 cursor.entry.budget cursor.entry.rest.now) }
{
    cursor.one_of(&RESERVED, &FOLDS, 0)
}
