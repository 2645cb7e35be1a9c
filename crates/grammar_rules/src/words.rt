//! Reserved words, names and quoted texts.

ghost use Rattle.std.specs.Prelude.{◌≡◌, ◌+◌, ◌<◌, ◌^◌, length, map};
ghost use Rattle.grammar_rules.specs.Gives.{GivesAlways, GivesText, Passes};
ghost use Rattle.grammar_rules.specs.Readers.{read_token};
ghost use Rattle.grammar_rules.specs.TokenRules.{worded, word_table, read_word_of};
ghost use Rattle.grammar_rules.specs.Tokens.{keyword_of, name_of, quoted_of, word_class};

use crate::classes::{FIRST_WORD, NAME};
use crate::{ReadError, TokenCursor};
use az_text::{Token, TokenKind};

/// The number of a word, where the reserved words are numbered from `number` on.
pub(crate) fn class_from(reserved: &[&str], number: u32, word: &str) -> u32
    requires { number + length reserved.now < 2 ^ 32 }
    ensures { result ≡ word_class (map (λ one. one.now) reserved.now) number word.now }
{
    match reserved {
        [] => NAME,
        [first, rest @ ..] => {
            if word == *first {
                number
            } else {
                class_from(rest, number + 1, word)
            }
        }
    }
}

/// The value beside a word.
fn worded<A: Copy>(table: &[(&str, A)], word: &str) -> Option<A>
    ensures { result ≡ worded (word_table table.now) word.now }
{
    match table {
        [] => None,
        [(first, value), rest @ ..] => {
            if word == *first {
                Some(*value)
            } else {
                worded(rest, word)
            }
        }
    }
}

impl<'a> TokenCursor<'a> {
    /// Past this reserved word.
    pub fn keyword(self, keyword: &str, weight: u32) -> Result<TokenCursor<'a>, ReadError>
        ensures { Passes result (read_token (keyword_of keyword.now) weight self.entry.budget self.entry.rest.now) }
    {
        match self.rest.split_first() {
            Some(
                (
                    Token {
                        kind: TokenKind::Word(word),
                        ..
                    },
                    rest,
                ),
            ) if word.as_str() == keyword => self.past(weight, rest),
            _ => Err(self.misplaced()),
        }
    }

    /// A word of the table, reserved or not, with the value beside it.
    pub fn word_of<A: Copy + Drop>(
        self,
        table: &[(&str, A)],
        weight: u32,
    ) -> Result<(A, TokenCursor<'a>), ReadError>
        ensures { GivesAlways result (read_word_of (word_table table.now) weight self.entry.budget self.entry.rest.now) }
    {
        match self.rest.split_first() {
            Some(
                (
                    Token {
                        kind: TokenKind::Word(word),
                        ..
                    },
                    rest,
                ),
            ) => match worded(table, word.as_str()) {
                Some(value) => Ok((value, self.past(weight, rest)?)),
                None => Err(self.misplaced()),
            },
            _ => Err(self.misplaced()),
        }
    }

    /// A word that is none of the reserved ones.
    pub fn name(
        self,
        reserved: &[&str],
        weight: u32,
    ) -> Result<(&'a str, TokenCursor<'a>), ReadError>
        requires { 26 + length reserved.now < 2 ^ 32 }
        ensures { GivesText result (read_token (name_of (map (λ one. one.now) reserved.now)) weight self.entry.budget self.entry.rest.now) }
    {
        match self.rest.split_first() {
            Some(
                (
                    Token {
                        kind: TokenKind::Word(word),
                        ..
                    },
                    rest,
                ),
            ) if class_from(reserved, FIRST_WORD, word.as_str()) == NAME => {
                Ok((word.as_str(), self.past(weight, rest)?))
            }
            _ => Err(self.misplaced()),
        }
    }

    /// What stands between quotes.
    pub fn quoted(self, weight: u32) -> Result<(&'a str, TokenCursor<'a>), ReadError>
        ensures { GivesText result (read_token quoted_of weight self.entry.budget self.entry.rest.now) }
    {
        match self.rest.split_first() {
            Some(
                (
                    Token {
                        kind: TokenKind::Quoted(text),
                        ..
                    },
                    rest,
                ),
            ) => Ok((text.as_str(), self.past(weight, rest)?)),
            _ => Err(self.misplaced()),
        }
    }
}
