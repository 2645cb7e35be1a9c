//! The tokens of programs and scripts.
//!
//! `specs/Tokens.antt` has their grammar. `specs/Reading.antt` has the tokens of a text with their
//! spans, and its first fault.
#![tactic(auto)]

mod fault;
mod front;
mod laws;
mod lent;
mod lexer;
mod mark;
#[cfg(test)]
mod tests;
mod token;

pub use fault::LexFault;
pub use laws::{lexed_is_the_reading, lumps_are_read, pieces_are_read, spelled_token_is_cut};
pub use lent::Lent;
pub use lexer::lex;
pub use mark::MarkKind;
pub use token::{Token, TokenKind};
