//! Tests of `table_data`: texts as tables over the domains of programs, and the rows of outputs.
#![tactic(auto)]

#[cfg(test)]
mod answers;
#[cfg(test)]
mod line_texts;
#[cfg(test)]
mod other_texts;
#[cfg(test)]
mod outputs;
#[cfg(test)]
mod table_tests;
