//! The formulas of the lifetimes of values under a target mapping.
//!
//! `specs/Laws.antt` says what they come to with those of the dependences (`CertifiedByFormulas`),
//! and the contract of `lifetime_formulas` that they are made.
#![tactic(auto)]

mod around;
mod beside;
mod formulas;
mod instance;
mod laws;
mod lifetimes;
mod reading;
mod same_cells;
mod spaces;
mod target;

pub use laws::{certified_by_formulas, life_is_meant};
pub use lifetimes::lifetime_formulas;
