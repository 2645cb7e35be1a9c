//! The bodies of instances as steps: the branches that hold, the index expressions and the values of inputs
//! are settled when the steps are made, so that an instance is carried out over the values of its loads alone.
//!
//! `specs/Settled.antt` says what settling a body answers, over `specs/Layouts.antt` and `specs/Runs.antt`.
#![tactic(auto)]

mod body;
mod given;
mod laying;
mod machine;

pub use body::Body;
pub use given::{Given, Room};
pub use machine::value_of;
