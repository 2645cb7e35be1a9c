//! Callers of `expr_places` and `expr_maps`, and a program that is certified by hand.
#![tactic(auto)]

mod first;
mod laws;
mod renumbered;

pub use first::put_into_first;
pub use laws::prefix_is_certified;
pub use renumbered::Renumbered;
