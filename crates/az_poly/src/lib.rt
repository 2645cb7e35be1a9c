//! Operations on polyhedra: the membership of each result in terms of its arguments.
//!
//! `specs/Operations.antt` says which rows each result has, in order.
#![tactic(auto)]

mod copies;
mod difference;
mod fault;
mod intersection;
mod membership;
mod substitution;

pub use difference::minus;
pub use fault::PolyFault;
pub use intersection::meet;
pub use membership::contains;
pub use substitution::{image_by_inverse, preimage, translate};
