//! Tests of `equation_meaning` over texts of programs, and evaluations on inputs of given numbers.
#![tactic(auto)]

#[cfg(test)]
mod answer;
#[cfg(test)]
mod cases;
mod inputs;
mod sample;
#[cfg(test)]
mod tests;

pub use sample::evaluated;
