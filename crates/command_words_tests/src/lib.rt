//! Tests of `command_words`: words, and what they ask for.
#![tactic(auto)]

#[cfg(test)]
mod answers;
