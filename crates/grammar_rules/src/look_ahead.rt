//! What the next token is.

ghost use Rattle.std.specs.Prelude.{◌≡◌, ◌+◌, ◌<◌, ◌^◌, length, map};
ghost use Rattle.grammar_rules.specs.Gives.{GivesAlways};
ghost use Rattle.grammar_rules.specs.Readers.{has, read_token, sees};
ghost use Rattle.grammar_rules.specs.Tokens.{chosen, chosen_of, class_of};

use crate::classes::{FIRST_WORD, NUMBER, QUOTED, mark_class};
use crate::words::class_from;
use crate::{ReadError, TokenCursor};
use az_text::{Token, TokenKind};

/// The number of a token's class.
fn class_of(reserved: &[&str], token: &Token<'_>) -> u32
    requires { 26 + length reserved.now < 2 ^ 32 }
    ensures { result ≡ class_of (map (λ one. one.now) reserved.now) token.now }
{
    match &token.kind {
        TokenKind::Word(word) => class_from(reserved, FIRST_WORD, word.as_str()),
        TokenKind::Number(_) => NUMBER,
        TokenKind::Quoted(_) => QUOTED,
        TokenKind::Mark(mark) => mark_class(*mark),
    }
}

fn has(set: &[u32], class: u32) -> bool
    ensures { result ≡ has set.now class }
{
    match set {
        [] => false,
        [first, rest @ ..] => class == *first || has(rest, class),
    }
}

fn chosen<A: Copy>(table: &[(u32, A)], class: u32) -> Option<A>
    ensures { result ≡ chosen table.now class }
{
    match table {
        [] => None,
        [(first, value), rest @ ..] => {
            if class == *first {
                Some(*value)
            } else {
                chosen(rest, class)
            }
        }
    }
}

impl<'a> TokenCursor<'a> {
    /// A token whose class is in the table, with the value there.
    pub fn one_of<A: Copy + Drop>(
        self,
        reserved: &[&str],
        table: &[(u32, A)],
        weight: u32,
    ) -> Result<(A, TokenCursor<'a>), ReadError>
        requires { 26 + length reserved.now < 2 ^ 32 }
        ensures { GivesAlways result (read_token (chosen_of (map (λ one. one.now) reserved.now) table.now) weight self.entry.budget self.entry.rest.now) }
    {
        let Some((token, rest)) = self.rest.split_first() else {
            return Err(self.misplaced());
        };
        match chosen(table, class_of(reserved, token)) {
            Some(value) => Ok((value, self.past(weight, rest)?)),
            None => Err(self.misplaced()),
        }
    }

    /// Whether the next token's class is in the set.
    pub fn sees(self, reserved: &[&str], set: &[u32]) -> bool
        requires { 26 + length reserved.now < 2 ^ 32 }
        ensures { result ≡ sees (class_of (map (λ one. one.now) reserved.now)) set.now self.entry.rest.now }
    {
        match self.rest.first() {
            Some(token) => has(set, class_of(reserved, token)),
            None => false,
        }
    }
}
