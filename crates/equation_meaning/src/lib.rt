//! The values of a program: for each output and local exactly its meanings, or why there are none.
//!
//! `specs/Evaluation.antt` says what an evaluation answers.
#![tactic(auto)]

mod body_count;
mod evaluation;
mod point_count;

pub use evaluation::evaluate;
pub use value_walk::{EvalRefusal, PointName};
