//! The commands of scripts that set the parts of a target mapping: the kinds of the dimensions of time, the
//! space-time and memory maps, and the order of the statements.
//!
//! `specs/Parts.antt` says what each sets and why it is refused, `specs/Commands.antt` what each leaves.
#![tactic(auto)]

mod commands;
mod maps;
mod names;
mod numbers;
mod parts;
mod stops;

pub use commands::{set_dimension_kinds, set_memory_map, set_space_time_map, set_statement_order};
