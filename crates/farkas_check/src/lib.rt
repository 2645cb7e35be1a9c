//! The judge of derivations and points. Whoever believes nothing else may believe this crate: a
//! derivation that it accepts refutes the system at all whole numbers.
//!
//! `specs/Verdict.antt` says what its answers mean, over az_lin's `specs/Derivation.antt` and
//! `specs/RationalPoint.antt`. The search for derivations stands on the same exact rows of az_lin
//! (their sums, products and quotients), which are proved there; the two share nothing else.
#![tactic(auto)]

mod fault;
mod judge;
mod next_row;
mod satisfy;

pub use fault::CheckFault;
pub use judge::{check, check_exact};
pub use satisfy::satisfies;
