//! Tests of `az_ast`: words at their ends, tables, each kind of refusal at its item, limits, copies.
#![tactic(auto)]

mod answer;
#[cfg(test)]
mod copies;
mod fault;
#[cfg(test)]
mod limits;
mod parts;
#[cfg(test)]
mod refusals;
#[cfg(test)]
mod words;

pub use answer::{Answer, answer_of};
pub use fault::Fault;
pub use parts::{one, program, space};
