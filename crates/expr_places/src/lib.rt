//! The places of an equation that certification looks at, and the reads among them.
//!
//! `specs/Soundness.antt` says what each place is owed: an equation is sound exactly if it is sound at
//! each of its places.
#![tactic(auto)]

mod laws;
mod place;
mod read;
mod scope;
mod walk;

pub use laws::{balanced_is_finite, branches_are_one, certified_is_sound_from};
pub use place::{Part, Place};
pub use read::{Read, reads};
pub use scope::{Domains, Scope};
pub use walk::places;
