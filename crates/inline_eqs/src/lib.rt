//! A local's body put in where another equation reads it, and locals taken out that nothing else reads.
//!
//! `specs/Inlining.antt` and `specs/Removal.antt` say what the changed programs are.
#![tactic(auto)]

mod inlining;
mod removal;

pub use inlining::inline;
pub use removal::remove_unused;
