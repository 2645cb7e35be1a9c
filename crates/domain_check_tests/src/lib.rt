//! Tests of `domain_check` over texts of programs.
#![tactic(auto)]

#[cfg(test)]
mod programs;
