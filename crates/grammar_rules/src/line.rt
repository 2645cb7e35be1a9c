//! Texts that are read by lines.

ghost use Rattle.std.specs.Prelude.{◌≡◌, ◌≢◌, ◌+◌, ◌++◌, ◌<◌, ◌≤◌, List, ℕ, length, take, drop, IfOk, MatchOption};
ghost use Rattle.std.specs.List.{prefix_len};
ghost use Rattle.az_text.specs.Tokens.{is_before_line_feed};
ghost use Rattle.grammar_rules.specs.Lines.{IsCut, LinesAreOne};

use az_lin::List;
use std::alloc::{AllocError, Global};
use std::marker::Model;

/// Bytes of a text, which contracts see as their list.
#[derive(Debug, Drop)]
pub struct Line<'a> {
    bytes: &'a [u8],
}

impl<'a> Model for Line<'a> {
    ghost use Rattle.std.specs.Prelude.{List, ℕ};

    ghost Value = { List ℕ };

    ghost view = { λ line. line.bytes.now };
}

impl<'a> Line<'a> {
    pub fn new(bytes: &'a [u8]) -> Line<'a>
        ensures { result ≡ bytes.now }
    {
        Line { bytes }
    }

    pub fn bytes(&self) -> &'a [u8]
        ensures { result.now ≡ self.now }
    {
        self.bytes
    }
}

/// A text cut into its lines.
#[derive(Debug, Drop)]
pub struct Lines<'a> {
    /// Those that end with a line feed, without it.
    pub lines: List<Line<'a>>,
    /// What stands behind the last line feed: nothing, where the last line is ended.
    pub rest: Line<'a>,
}

fn line_len(text: &[u8]) -> usize
    ensures passing { result ≡ prefix_len is_before_line_feed text.now }
    ensures within { result ≤ length text.now }
{
    text.iter().take_while(|byte| **byte != b'\n').count()
}

/// What stands before the byte at a place, and behind it.
fn split(text: &[u8], place: usize) -> (&[u8], &[u8])
    requires { place < length text.now }
    ensures before { result.0.now ≡ take place text.now }
    ensures behind { result.1.now ≡ drop (place + 1) text.now }
{
    (&text[..place], &text[place + 1..])
}

/// The lines of a text, which it lends them, and what stands behind the last of them.
pub fn cut_lines(alloc: Global, text: &[u8]) -> Result<Lines<'_>, AllocError>
    ensures { IfOk result (λ cut. IsCut text.now cut.lines cut.rest) }
{
    let mut lines = Vec::new(alloc);
    let mut rest = text;
    let mut len = line_len(rest);
    'lines: while len < rest.len() {
        let (line, behind) = split(rest, len);
        lines.push(Line::new(line))?;
        rest = behind;
        len = line_len(rest);
    }
    Ok(Lines {
        lines: List::from_vec(lines),
        rest: Line::new(rest),
    })
}

/// What stands behind these bytes, where the line begins with them.
#[tactic(auto, using(std::proofs::lemmas::Slice::Eq::strip_prefix_is))]
pub fn behind<'a>(line: &'a [u8], bytes: &[u8]) -> Option<&'a [u8]>
    ensures { MatchOption result ((rest : List ℕ) → line.now ≢ bytes.now ++ rest) (λ rest. line.now ≡ bytes.now ++ rest.now) }
{
    line.strip_prefix(bytes)
}

/// A text is cut into lines in one way.
pub fn lines_are_one()
    ensures { LinesAreOne }
{}
