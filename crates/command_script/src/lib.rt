//! Reads scripts, and the maps in them.
//!
//! `specs/Answers.antt` says which texts say commands, and why any other is refused;
//! `specs/Resolved.antt` the map that a map as written means.
#![tactic(auto)]

mod fault;
mod limits;
mod names;
mod reader;
mod resolution;
mod sides;

pub use fault::ScriptFault;
pub use reader::read_script;
pub use resolution::{ResolveFault, resolve_map};
pub use script_grammar::{Command, KindText, MapText, TermText};
