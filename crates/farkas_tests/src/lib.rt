//! Tests of the elimination and of the judge of derivations, over tables of small systems. They
//! stand beside those crates, so that neither is proved twice.
#![tactic(auto)]

#[cfg(test)]
mod elimination;
mod fault;
#[cfg(test)]
mod judged;
#[cfg(test)]
mod verdicts;

pub use fault::Fault;

/// Rows over three columns: the coefficients, and the constant last.
pub type Table<'a> = &'a [[i128; 4]];
