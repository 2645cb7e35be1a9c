//! The grammar of scripts, and the commands of a text as they are written.
//!
//! `specs/Grammar.antt` has the grammar as rules, command by command, and `specs/Readings.antt` what is
//! answered for a text: its commands, exactly for a sentence, or the cause and the exact place.
#![tactic(auto)]

mod arguments;
mod command;
mod kinds;
mod laws;
mod lists;
mod mapping_commands;
mod maps;
mod numbers;
mod program_commands;
mod run_commands;
mod script;
mod text;
mod words;

pub use command::{Command, KindText, MapText, TermText};
pub use laws::{no_script_is_heavy, numbers_stay_as_they_are};
pub use script::read_tokens;
pub use text::read_text;
