//! Maps put into expressions, accesses replaced, and folds split and joined.
//!
//! `specs/Put.antt` says what an expression with a map put in is: its value at a point is the old one at
//! the point's image.
#![tactic(auto)]

mod laws;
mod replacement;
mod substitution;

pub use laws::{put_means_at_image, reductions_split, replaced_means_same};
pub use replacement::{Replacement, replace_accesses};
pub use substitution::put;
