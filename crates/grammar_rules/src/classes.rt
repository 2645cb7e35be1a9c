//! The classes of tokens by name. Each reserved word has a class of its own, from the first one on in their
//! order.

ghost use Rattle.std.specs.Prelude.{◌≡◌};
ghost use Rattle.grammar_rules.specs.Tokens.{mark_class};

use az_text::MarkKind;

pub const OPEN_BRACE: u32 = 0;

pub const CLOSE_BRACE: u32 = 1;

pub const OPEN_BRACKET: u32 = 2;

pub const CLOSE_BRACKET: u32 = 3;

pub const OPEN_PAREN: u32 = 4;

pub const CLOSE_PAREN: u32 = 5;

pub const BAR: u32 = 6;

pub const BAR_BAR: u32 = 7;

pub const COMMA: u32 = 8;

pub const COLON: u32 = 9;

pub const SEMICOLON: u32 = 10;

pub const DOT: u32 = 11;

pub const EQUAL: u32 = 12;

pub const EQUAL_EQUAL: u32 = 13;

pub const LESS_EQUAL: u32 = 14;

pub const LESS: u32 = 15;

pub const GREATER_EQUAL: u32 = 16;

pub const GREATER: u32 = 17;

pub const AND_AND: u32 = 18;

pub const PLUS: u32 = 19;

pub const MINUS: u32 = 20;

pub const STAR: u32 = 21;

pub const ARROW: u32 = 22;

pub const NUMBER: u32 = 23;

pub const QUOTED: u32 = 24;
/// A word that is not reserved.
pub const NAME: u32 = 25;

pub const FIRST_WORD: u32 = 26;

pub(crate) fn mark_class(kind: MarkKind) -> u32
    ensures { result ≡ mark_class kind }
{
    match kind {
        MarkKind::OpenBrace => OPEN_BRACE,
        MarkKind::CloseBrace => CLOSE_BRACE,
        MarkKind::OpenBracket => OPEN_BRACKET,
        MarkKind::CloseBracket => CLOSE_BRACKET,
        MarkKind::OpenParen => OPEN_PAREN,
        MarkKind::CloseParen => CLOSE_PAREN,
        MarkKind::Bar => BAR,
        MarkKind::BarBar => BAR_BAR,
        MarkKind::Comma => COMMA,
        MarkKind::Colon => COLON,
        MarkKind::Semicolon => SEMICOLON,
        MarkKind::Dot => DOT,
        MarkKind::Equal => EQUAL,
        MarkKind::EqualEqual => EQUAL_EQUAL,
        MarkKind::LessEqual => LESS_EQUAL,
        MarkKind::Less => LESS,
        MarkKind::GreaterEqual => GREATER_EQUAL,
        MarkKind::Greater => GREATER,
        MarkKind::AndAnd => AND_AND,
        MarkKind::Plus => PLUS,
        MarkKind::Minus => MINUS,
        MarkKind::Star => STAR,
        MarkKind::Arrow => ARROW,
    }
}
