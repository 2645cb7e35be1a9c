//! The grammar of programs, and the program of a text as it is written.
//!
//! `specs/Grammar.antt` has the grammar as rules, and `specs/Readings.antt` what is answered for a
//! text: its program, exactly for a sentence, or the cause and the exact place.
#![tactic(auto)]

mod declarations;
mod domains;
mod equations;
mod expressions;
mod laws;
mod sides;
mod size;
#[cfg(test)]
mod tests;
mod text;
mod tree;
mod words;

pub use equations::read_tokens;
pub use grammar_rules::Term;
pub use laws::printed_rules_are_same;
pub use size::is_within;
pub use text::read_text;
pub use tree::{Branch, Chain, Declaration, Equation, Expr, Link, Operator, ProgramText, Relation};
