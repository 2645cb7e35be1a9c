//! Certification: a program whose domains are finite, whose branches cover and don't overlap, and whose
//! reads stay within the domains, for all parameters; or the first check that fails, with a point.
//!
//! `specs/Promise.antt` says what certification answers (`Certifies`).
#![tactic(auto)]

mod branches;
mod build;
mod certification;
mod checks;
mod decide;
mod directions;
mod fault;
mod read;
mod survey;

pub use certification::certify;
pub use fault::{CertifyFault, CheckKind, CheckNo};
