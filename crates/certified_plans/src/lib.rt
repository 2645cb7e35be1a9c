//! What a certified mapping gives: a meaning of each instance, and plans that keep every value.
//!
//! `specs/Laws.antt` has the statements, over the words of `plan_promise` and `execution`.
#![tactic(auto)]

mod laws;

pub use laws::{
    every_instance_means, every_run_keeps_values, examples_are_worked_out, outputs_are_meanings,
    plan_is_sound,
};
