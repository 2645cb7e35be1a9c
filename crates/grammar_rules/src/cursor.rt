//! The place of a reader in its items, and the weight that it may still spend.

ghost use Rattle.std.specs.Prelude.{◌≡◌, length};
ghost use Rattle.grammar_rules.specs.declared.fault.ReadError.TheVariants.{Syntax};
ghost use Rattle.grammar_rules.specs.Gives.{Passes};
ghost use Rattle.grammar_rules.specs.Readers.{spend};

use crate::ReadError;
use az_text::Token;

/// The items that are left, tokens or others, and the budget.
#[derive_where(Clone, Copy)]
pub struct Cursor<'a, T> {
    pub rest: &'a [T],
    pub budget: u32,
}

/// A cursor over tokens.
pub type TokenCursor<'a> = Cursor<'a, Token<'a>>;

impl<'a, T> Cursor<'a, T> {
    pub fn new(items: &'a [T], budget: u32) -> Cursor<'a, T>
        ensures rest { result.rest.now ≡ items.now }
        ensures budget { result.budget ≡ budget }
    {
        Cursor {
            rest: items,
            budget,
        }
    }

    /// The same place with a limit of its own.
    pub fn limited(self, budget: u32) -> Cursor<'a, T>
        ensures rest { result.rest.now ≡ self.entry.rest.now }
        ensures budget { result.budget ≡ budget }
    {
        Cursor {
            rest: self.rest,
            budget,
        }
    }

    /// The syntax error at this place.
    pub fn misplaced(self) -> ReadError
        ensures { result ≡ Syntax (length self.entry.rest.now) }
    {
        ReadError::Syntax(self.rest.len())
    }

    /// Past an item of this weight, to what is left behind it.
    pub fn past(self, weight: u32, rest: &'a [T]) -> Result<Cursor<'a, T>, ReadError>
        ensures { Passes result (spend weight tt self.entry.budget rest.now) }
    {
        if weight <= self.budget {
            Ok(Cursor {
                rest,
                budget: self.budget - weight,
            })
        } else {
            Err(ReadError::Size)
        }
    }
}
