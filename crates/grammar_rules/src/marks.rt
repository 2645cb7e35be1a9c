//! Marks and numbers.

ghost use Rattle.grammar_rules.specs.Gives.{GivesAlways, Passes};
ghost use Rattle.grammar_rules.specs.Readers.{read_token};
ghost use Rattle.grammar_rules.specs.Tokens.{mark_of, number_of};

use crate::classes::mark_class;
use crate::{ReadError, TokenCursor};
use az_text::{MarkKind, Token, TokenKind};

impl<'a> TokenCursor<'a> {
    /// Past a mark.
    pub fn mark(self, mark: MarkKind, weight: u32) -> Result<TokenCursor<'a>, ReadError>
        ensures { Passes result (read_token (mark_of mark) weight self.entry.budget self.entry.rest.now) }
    {
        match self.rest.split_first() {
            Some(
                (
                    Token {
                        kind: TokenKind::Mark(kind),
                        ..
                    },
                    rest,
                ),
            ) if mark_class(*kind) == mark_class(mark) => self.past(weight, rest),
            _ => Err(self.misplaced()),
        }
    }

    /// A number.
    pub fn number(self, weight: u32) -> Result<(u128, TokenCursor<'a>), ReadError>
        ensures { GivesAlways result (read_token number_of weight self.entry.budget self.entry.rest.now) }
    {
        match self.rest.split_first() {
            Some(
                (
                    Token {
                        kind: TokenKind::Number(number),
                        ..
                    },
                    rest,
                ),
            ) => Ok((*number, self.past(weight, rest)?)),
            _ => Err(self.misplaced()),
        }
    }
}
