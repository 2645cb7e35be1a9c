//! Formulas with their cases and answers, worked out by hand.
//!
//! `written.rt` says how a table writes a formula.
#![tactic(auto)]

#[cfg(test)]
mod answers;
#[cfg(test)]
mod gates;
#[cfg(test)]
mod limits;
#[cfg(test)]
mod negations;
#[cfg(test)]
mod table;
mod written;

pub use written::{Sign, formula};
