//! The commands of scripts that verify the target mapping and write the certificate of the last yes.
//!
//! `specs/Verification.antt` says when a mapping is verified and why it is refused, `specs/Commands.antt` what
//! each command leaves and writes.
#![tactic(auto)]

mod commands;
mod names;
mod texts;
mod verification;

pub use commands::{verify_target_mapping, write_certificate};
