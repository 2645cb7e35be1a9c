//! Programs as text, which is read as the same program.
//!
//! `specs/Shown.antt` has the text of a program: `shown_program` puts together its tokens and blanks.
#![tactic(auto)]

mod domains;
mod expressions;
mod fault;
mod names;
mod program;
mod sides;

pub use fault::ShowFault;
pub use program::show_program;
