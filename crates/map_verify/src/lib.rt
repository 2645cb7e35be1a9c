//! Verification of target mappings: whether a mapping keeps its promise for all parameters.
//!
//! `specs/Promise.antt` says what a verdict gives, `specs/Verdicts.antt` exactly what `verify` answers,
//! and `specs/Certificates.antt` what a certificate of a mapping is.
#![tactic(auto)]

mod certified;
mod decided;
mod fault;
mod ready;
mod step_count;
mod verdict;
mod verification;

pub use certified::certified_map;
pub use fault::{BadCertificate, VerifyFault};
pub use ready::{Unready, ready_formulas};
pub use verdict::Verdict;
pub use verification::verify;
