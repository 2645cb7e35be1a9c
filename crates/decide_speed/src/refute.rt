//! A verdict that nobody need believe: the checker accepts each derivation.

ghost use Rattle.std.specs.Prelude.{◌≤◌};
ghost use Rattle.decide_speed.specs.Refutation.{IsRefutation};

use az_lin::Conj;
use farkas_check::{CheckFault, check};
use farkas_find::{Decision, FindFault, decide};
use std::alloc::Global;

/// Whether a derivation that the checker accepts refutes the system.
pub fn is_refuted(alloc: Global, system: &Conj) -> Result<bool, FindFault>
    requires narrow { system.now.width ≤ 4096 }
    ensures answer { IsRefutation system.now result }
{
    match decide(alloc, system)? {
        Decision::Refuted(derivation) => match check(alloc, system, &derivation) {
            Ok(()) => Ok(true),
            Err(CheckFault::BadStep { .. }) => unreachable!(),
            Err(CheckFault::Memory) => Err(FindFault::Memory),
        },
        Decision::Point(_) => Ok(false),
    }
}
