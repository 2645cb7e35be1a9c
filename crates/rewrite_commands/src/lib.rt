//! The commands that change the program.
//!
//! `specs/Changes.antt` says test by test what a change gives, and `specs/Commands.antt` what each command
//! does.
#![tactic(auto)]

mod basis;
mod commands;
mod inlining;
mod removal;
mod stops;

pub use commands::{change_basis, inline, remove_unused};
