//! What a text begins with: a token, what stands between tokens, or neither.

ghost use Rattle.std.specs.Prelude.{◌≡◌, ◌<◌, ◌≤◌, ◌^◌, List, ℕ, length};
ghost use Rattle.std.specs.Char.{is_ascii_digit};
ghost use Rattle.std.specs.List.{prefix_len};
ghost use Rattle.std.specs.Str.{IsAscii};
ghost use Rattle.az_text.specs.Tokens.{is_blank, is_word_byte, is_inner, is_before_line_feed, AllAre};
ghost use Rattle.az_text.specs.Fronts.{front_of, word_front, number_front, quoted_front, comment_front, mark_front, value_below};

use crate::mark::{double_mark, single_mark};
use crate::{Lent, TokenKind};

/// The greatest number that is a token.
const MOST: u128 = (1 << 127) - 1;

/// What a text begins with, and of how many bytes it is.
#[derive(Drop)]
pub(crate) enum Front<'a> {
    /// A blank or a comment.
    Between(usize),
    /// The longest token.
    Cut(TokenKind<'a>, usize),
    /// A number above 2^127 - 1.
    Wide,
    /// None of these.
    Nothing,
}

fn is_blank(byte: u8) -> bool
    ensures { result ≡ is_blank byte }
{
    byte == b' ' || byte == b'\t' || byte == b'\n' || byte == b'\r'
}

fn is_word_byte(byte: u8) -> bool
    ensures { result ≡ is_word_byte byte }
{
    byte.is_ascii_alphanumeric() || byte == b'_'
}

fn is_inner(byte: u8) -> bool
    ensures { result ≡ is_inner byte }
{
    b' ' <= byte && byte <= b'~' && byte != b'"'
}

/// The ASCII bytes as a text.
fn lent(bytes: &[u8]) -> Lent<'_>
    requires { IsAscii bytes.now }
    ensures { result ≡ bytes.now }
{
    match str::from_utf8(bytes) {
        Ok(text) => Lent::new(text),
        Err(_) => unreachable!(),
    }
}

fn word_len(text: &[u8]) -> usize
    ensures passing { result ≡ prefix_len is_word_byte text.now }
    ensures within { result ≤ length text.now }
{
    text.iter().take_while(|byte| is_word_byte(**byte)).count()
}

fn digits_len(text: &[u8]) -> usize
    ensures passing { result ≡ prefix_len is_ascii_digit text.now }
    ensures within { result ≤ length text.now }
{
    text.iter().take_while(|byte| byte.is_ascii_digit()).count()
}

fn inner_len(text: &[u8]) -> usize
    ensures passing { result ≡ prefix_len is_inner text.now }
    ensures within { result ≤ length text.now }
{
    text.iter().take_while(|byte| is_inner(**byte)).count()
}

fn line_len(text: &[u8]) -> usize
    ensures passing { result ≡ prefix_len is_before_line_feed text.now }
    ensures within { result ≤ length text.now }
{
    text.iter().take_while(|byte| **byte != b'\n').count()
}

/// The word at the front of a text that begins with a letter.
#[tactic(auto, unfolding(crate::specs::Fronts::word_front))]
fn word_front(text: &[u8]) -> Front<'_>
    ensures { result ≡ word_front text.now }
{
    let len = word_len(text);
    Front::Cut(TokenKind::Word(lent(&text[..len])), len)
}

/// The value of the digits, where it is below 2^127.
fn value_of(digits: &[u8]) -> Option<u128>
    requires { AllAre is_ascii_digit digits.now }
    ensures { result ≡ value_below (2 ^ 127) digits.now }
{
    let mut value: u128 = 0;
    for digit in digits {
        if value > MOST / 10 {
            return None;
        }
        value = 10 * value + u128::from(*digit - b'0');
        if value > MOST {
            return None;
        }
    }
    Some(value)
}

/// The number at the front of a text that begins with a digit.
#[tactic(auto, unfolding(crate::specs::Fronts::number_front))]
fn number_front(text: &[u8]) -> Front<'_>
    ensures { result ≡ number_front text.now }
{
    let len = digits_len(text);
    match value_of(&text[..len]) {
        Some(value) => Front::Cut(TokenKind::Number(value), len),
        None => Front::Wide,
    }
}

/// The quoted text whose opening quote stands before this text.
#[tactic(auto, unfolding(crate::specs::Fronts::quoted_front))]
fn quoted_front(text: &[u8]) -> Front<'_>
    requires { length text.now < 2 ^ 63 }
    ensures { result ≡ quoted_front text.now }
{
    let len = inner_len(text);
    if len < text.len() && text[len] == b'"' {
        Front::Cut(TokenKind::Quoted(lent(&text[..len])), len + 2)
    } else {
        Front::Nothing
    }
}

/// The comment whose first slash stands before this text.
#[tactic(auto, unfolding(crate::specs::Fronts::comment_front))]
fn comment_front(text: &[u8]) -> Front<'_>
    requires { length text.now < 2 ^ 63 }
    ensures { result ≡ comment_front text.now }
{
    match text {
        [b'/', line @ ..] => Front::Between(2 + line_len(line)),
        _ => Front::Nothing,
    }
}

/// The mark at the front of a text.
#[tactic(auto, unfolding(crate::specs::Fronts::mark_front))]
fn mark_front(text: &[u8]) -> Front<'_>
    ensures { result ≡ mark_front text.now }
{
    let (kind, len) = match text {
        [] => (None, 0),
        [first] => (single_mark(*first), 1),
        [first, second, ..] => match double_mark(*first, *second) {
            Some(kind) => (Some(kind), 2),
            None => (single_mark(*first), 1),
        },
    };
    match kind {
        Some(kind) => Front::Cut(TokenKind::Mark(kind), len),
        None => Front::Nothing,
    }
}

/// What a text begins with.
#[tactic(auto, unfolding(crate::specs::Fronts::front_of))]
pub(crate) fn front_of(text: &[u8]) -> Front<'_>
    requires { length text.now < 2 ^ 63 }
    ensures { result ≡ front_of text.now }
{
    let [first, rest @ ..] = text else {
        return Front::Nothing;
    };
    if is_blank(*first) {
        Front::Between(1)
    } else if first.is_ascii_alphabetic() {
        word_front(text)
    } else if first.is_ascii_digit() {
        number_front(text)
    } else if *first == b'"' {
        quoted_front(rest)
    } else if *first == b'/' {
        comment_front(rest)
    } else {
        mark_front(text)
    }
}
