//! The commands that read, check and show programs.
//!
//! `specs/Programs.antt` says how a program is read from a file, and `specs/Commands.antt` what each command
//! does.
#![tactic(auto)]

mod commands;
mod program;

pub use commands::{check_program, load_program, show_program};
pub use program::{read_alphabets, uncertified};
