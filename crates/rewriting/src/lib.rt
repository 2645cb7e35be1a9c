//! What all rewritings of programs share: the promise that meaning is kept, the fault of a change, equations
//! changed one by one, and the changed program put together and certified.
//!
//! `specs/Promise.antt` says when a rewriting keeps meaning, `specs/Answers.antt` what a changing call answers.
#![tactic(auto)]

mod assembly;
mod copies;
mod equations;
mod fault;
mod named;
mod reading;

pub use assembly::changed_program;
pub use copies::push_copies;
pub use equations::{EquationChange, changed_equations};
pub use fault::ChangeFault;
pub use named::{is_local, is_read_by, name_of, number_of, rules, unknown, variable_count};
pub use reading::reads;
