//! One stage of the elimination.

ghost use Rattle.std.specs.Prelude.{◌≡◌, ◌<◌, ◌+◌, ◌^◌, ◌++◌, IfOk, OnOk, vec_len};
ghost use Rattle.farkas_find.specs.Tidying.{rounding_steps, strongest, rounded_rows};
ghost use Rattle.farkas_find.specs.Answers.{IsTidied};

use crate::contradiction::contradiction;
use crate::duplicates::strongest;
use crate::numbered::{Numbered, at};
use crate::rounding::round_rows;
use az_lin::Step;
use std::alloc::{AllocError, Global};

/// What tidying finds.
#[derive(Debug, Drop)]
pub(crate) enum AfterTidying {
    /// The row with this number refutes the system.
    Refuted(u32),
    Kept(Vec<Numbered>),
}

/// Rounds the rows, looks for a contradiction, and leaves out what says nothing more.
pub(crate) fn tidied(
    alloc: Global,
    rows: Vec<Numbered>,
    next: u32,
    steps: &mut Vec<Step>,
) -> Result<AfterTidying, AllocError>
    requires { next + vec_len rows < 2 ^ 32 }
    ensures result { IfOk result (λ found. IsTidied next rows.items found) }
    ensures steps { OnOk result (steps.new.items ≡ steps.old.items ++ rounding_steps rows.items) }
{
    let rounded = round_rows(alloc, rows, next, steps)?;
    match contradiction(rounded.as_slice()) {
        Some(place) => Ok(AfterTidying::Refuted(at(rounded.as_slice(), place).number)),
        None => Ok(AfterTidying::Kept(strongest(alloc, rounded)?)),
    }
}
