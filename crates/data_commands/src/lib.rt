//! The commands that bring data to a program and evaluate it: the values of its parameters, the tables of its
//! inputs from files, and the rows of its outputs.
//!
//! `specs/Parameters.antt`, `specs/Tables.antt` and `specs/Outputs.antt` say what each does, step by step.
#![tactic(auto)]

mod commands;
mod inputs;
mod outputs;
mod parameters;
mod tables;

pub use commands::{load_table, set_number};
pub use inputs::read_input;
pub use outputs::output_rows;
pub use parameters::params;
