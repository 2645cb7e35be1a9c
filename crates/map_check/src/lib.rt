//! The check of a certificate, which searches for nothing.
//!
//! `map_verify` says what a certificate of a mapping is (`specs/Certificates.antt`), and what its check
//! answers (`specs/Mistakes.antt`).
#![tactic(auto)]

mod formula_check;
mod list_check;

pub use list_check::check_only;
