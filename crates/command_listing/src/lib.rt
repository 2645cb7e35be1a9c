//! The listing of a script: what is said of each of its commands, one after another.
//!
//! `specs/Listing.antt` says it for all commands; which there are, and how each is carried out, is the matter of the
//! crates above.
#![tactic(auto)]

mod listing;

pub use listing::end_turn;
