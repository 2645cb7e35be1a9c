//! A small grammar of sums, as an example and a test of the rules and the cursor.
//!
//! `specs/Sums.antt` has the grammar with its values, and its readers beside it.
#![tactic(auto)]

#[cfg(test)]
mod decimal_tests;
mod laws;
mod sums;
#[cfg(test)]
mod tests;

pub use laws::{lines_are_read, word_lines_are_taken};
pub use sums::{Sign, read_sum};
