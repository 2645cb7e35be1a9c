//! Locals under other coordinates.
//!
//! `specs/Basis.antt` says what the changed program is.
#![tactic(auto)]

mod rebasing;

pub use rebasing::{change_basis, size_refusal};
