//! From a program as written, with names, to the program that it means, and why a text has none.
//!
//! `specs/Resolved.antt` has the program, and `specs/Refusals.antt` the first limit or shape that a
//! text is refused for.
#![tactic(auto)]

mod chains;
mod depth;
mod domains;
mod equations;
mod expressions;
mod faults;
mod items;
mod kinds;
mod leaves;
mod limits;
mod links;
mod parts;
mod piece;
mod piece_tests;
mod refusal;
mod resolution;
mod rows;
mod variables;
mod walk;

pub use resolution::resolve;
