//! A part of a text, lent from it.

ghost use Rattle.std.specs.Prelude.{◌≡◌};

use std::marker::Model;

/// A part of a text, which contracts see as its bytes.
#[derive(Debug, Drop)]
pub struct Lent<'a> {
    text: &'a str,
}

impl<'a> Model for Lent<'a> {
    ghost use Rattle.std.specs.Prelude.{List, ℕ};

    ghost Value = { List ℕ };

    ghost view = { λ lent. lent.text.now };
}

impl<'a> Lent<'a> {
    pub fn new(text: &'a str) -> Lent<'a>
        ensures { result ≡ text.now }
    {
        Lent { text }
    }

    pub fn as_str(&self) -> &'a str
        ensures { result.now ≡ self.now }
    {
        self.text
    }
}
