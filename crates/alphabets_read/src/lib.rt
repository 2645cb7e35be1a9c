//! Reads programs.
//!
//! `specs/Answers.antt` says which texts say a program, and why any other is refused.
#![tactic(auto)]

#[cfg(test)]
mod answer_tests;
mod fault;
mod reader;
#[cfg(test)]
mod value_tests;

pub use fault::ReadFault;
pub use reader::read_program;
