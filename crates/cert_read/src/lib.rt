//! Certificates read from their text.
//!
//! `cert_text` says how a certificate is written and what a reader answers. A text is cut into lines
//! once; the name and the step of a line are read for themselves, and groups of lines go up to the
//! first that can't go on, so that it is the first bad one.
#![tactic(auto)]

mod groups;
mod name_lines;
mod reading;
mod step_lines;

pub use reading::read_certificate;
