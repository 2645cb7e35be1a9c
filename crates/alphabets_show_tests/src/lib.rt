//! Tests of `alphabets_show`: programs with their text, each read back.
#![tactic(auto)]

#[cfg(test)]
mod cases;
#[cfg(test)]
mod text_tests;
