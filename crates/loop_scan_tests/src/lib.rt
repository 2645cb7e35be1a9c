//! Tests of `loop_scan`: domains with their members, through both calls, and the refusals.
#![tactic(auto)]

#[cfg(test)]
mod case;
#[cfg(test)]
mod constant_cases;
#[cfg(test)]
mod members_tests;
#[cfg(test)]
mod plain_cases;
#[cfg(test)]
mod refusal_tests;
#[cfg(test)]
mod refusals;
#[cfg(test)]
mod rounding_cases;
mod system;
#[cfg(test)]
mod union_cases;
