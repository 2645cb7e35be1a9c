//! Tables of values from the records of a CSV text, and the rows of a program's outputs.
//!
//! `specs/Answers.antt` says what a text is answered, over `specs/TableOf.antt`.
#![tactic(auto)]

mod fault;
mod filling;
mod number;
mod place;
mod read;
mod records;
mod row;
mod table;
mod write;

pub use fault::{RowKind, TableFault};
pub use read::read_table;
pub use write::write_outputs;
