//! The work of an instance in a plan: its steps, the cells that it loads from, and the one where it is stored.
//!
//! `specs/WorkOf.antt` says what is made, and of what.
#![tactic(auto)]

mod makings;
mod task;

pub use makings::Makings;
pub use task::{Task, TaskLoad};
