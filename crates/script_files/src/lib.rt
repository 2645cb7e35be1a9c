//! Scripts in files: the commands that a file's text says, and where each of them begins.
//!
//! `specs/Commands.antt` says which texts say commands and why others are refused, and `specs/Places.antt`
//! where a command stands.
#![tactic(auto)]

mod commands;
mod places;

pub use commands::commands_in;
pub use places::syntax_stop;
