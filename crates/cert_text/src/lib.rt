//! Certificates of target mappings, and their text.
//!
//! `specs/Lines.antt` says how a certificate is written, `specs/Answers.antt` what is read and written.
#![tactic(auto)]

mod certificate;
mod fault;
mod writing;

pub use certificate::{Certificate, Proved};
pub use fault::CertFault;
pub use writing::write_certificate;
