//! The marks.

ghost use Rattle.std.specs.Prelude.{◌≡◌};
ghost use Rattle.az_text.specs.Fronts.{lookup, lookup_two, single_marks, double_marks};

#[derive(Clone, Copy, Debug, PartialEq, Eq)]
pub enum MarkKind {
    OpenBrace,
    CloseBrace,
    OpenBracket,
    CloseBracket,
    OpenParen,
    CloseParen,
    Bar,
    BarBar,
    Comma,
    Colon,
    Semicolon,
    Dot,
    Equal,
    EqualEqual,
    LessEqual,
    Less,
    GreaterEqual,
    Greater,
    AndAnd,
    Plus,
    Minus,
    Star,
    Arrow,
}

/// The mark of one byte.
pub(crate) fn single_mark(byte: u8) -> Option<MarkKind>
    ensures { result ≡ lookup single_marks byte }
{
    let kind = match byte {
        b'{' => MarkKind::OpenBrace,
        b'}' => MarkKind::CloseBrace,
        b'[' => MarkKind::OpenBracket,
        b']' => MarkKind::CloseBracket,
        b'(' => MarkKind::OpenParen,
        b')' => MarkKind::CloseParen,
        b'|' => MarkKind::Bar,
        b',' => MarkKind::Comma,
        b':' => MarkKind::Colon,
        b';' => MarkKind::Semicolon,
        b'.' => MarkKind::Dot,
        b'=' => MarkKind::Equal,
        b'<' => MarkKind::Less,
        b'>' => MarkKind::Greater,
        b'+' => MarkKind::Plus,
        b'-' => MarkKind::Minus,
        b'*' => MarkKind::Star,
        _ => return None,
    };
    Some(kind)
}

/// The mark of two bytes.
pub(crate) fn double_mark(first: u8, second: u8) -> Option<MarkKind>
    ensures { result ≡ lookup_two double_marks first second }
{
    match (first, second) {
        (b'|', b'|') => Some(MarkKind::BarBar),
        (b'=', b'=') => Some(MarkKind::EqualEqual),
        (b'<', b'=') => Some(MarkKind::LessEqual),
        (b'>', b'=') => Some(MarkKind::GreaterEqual),
        (b'&', b'&') => Some(MarkKind::AndAnd),
        (b'-', b'>') => Some(MarkKind::Arrow),
        _ => None,
    }
}
