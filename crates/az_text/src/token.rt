//! A token and where it stands.

use crate::{Lent, MarkKind};

#[derive(Debug, Drop)]
pub enum TokenKind<'a> {
    /// A letter, then letters, digits and underscores. Any word: which ones are names is the grammar's matter.
    Word(Lent<'a>),
    /// The value of one or more digits, at most 2^127 - 1.
    Number(u128),
    /// What stands between the quotes.
    Quoted(Lent<'a>),
    Mark(MarkKind),
}

/// A token of a text, which lends it its words, and its span in bytes of the text: from its first byte to
/// the place after its last.
#[derive(Debug, Drop)]
pub struct Token<'a> {
    pub kind: TokenKind<'a>,
    pub from: usize,
    pub to: usize,
}
