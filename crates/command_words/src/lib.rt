//! The words of the command line, by their grammar.
//!
//! `specs/Requests.antt` says which words ask for what; no others do.
#![tactic(auto)]

mod binding;
mod count;
mod evaluation;
mod integer;
mod line;
mod request;

pub use binding::Binding;
pub use evaluation::Evaluation;
pub use request::{Request, request_of};
