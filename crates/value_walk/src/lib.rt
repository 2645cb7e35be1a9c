//! The values of a program's points, by a walk from each point through those that it reads.
//!
//! `specs/Meanings.antt` says what the walk promises.
#![tactic(auto)]

mod boxes;
mod code;
mod cycle;
mod evaluation;
mod grid;
mod place;
mod points;
mod reader;
mod refusal;
mod scene;
mod shrinking;
mod slot;
mod stack;
mod step;
mod sweep;
mod tables;
mod value;
mod walk;

pub use boxes::members;
pub use evaluation::values;
pub use points::points_of;
pub use refusal::{EvalRefusal, PointName};
