//! Fields of a line, with one space between: words, and numbers in decimal, each with one spelling.
#![tactic(auto)]

mod numbers;
mod words;

pub use numbers::{last_integer, last_natural, spaced_integer, spaced_natural};
pub use words::{Word, fields_are_one, spaced_word};
