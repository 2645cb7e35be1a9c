//! The answer of the elimination to one system.

ghost use Rattle.std.specs.Prelude.{◌≡◌, ◌≤◌, IfOk, IfErr};
ghost use Rattle.formula_refute.specs.Inner.Verdicts.{IsVerdict};
ghost use Rattle.formula_refute.specs.declared.fault.RefuteFault.TheVariants.{Memory};

use crate::{RefuteFault, Stop};
use az_lin::{Conj, Derivation};
use farkas_find::{Decision, FindFault, decide};
use std::alloc::Global;

#[derive(Debug, Drop)]
pub(crate) enum Verdict {
    Refuted(Derivation),
    /// What the elimination gives in place of a derivation.
    Stopped(Stop),
}

pub(crate) fn verdict_on(alloc: Global, system: &Conj) -> Result<Verdict, RefuteFault>
    requires narrow { system.now.width ≤ 4096 }
    ensures ok { IfOk result (IsVerdict system.now) }
    ensures cause { IfErr result (λ fault. fault ≡ Memory) }
{
    match decide(alloc, system) {
        Ok(Decision::Refuted(derivation)) => Ok(Verdict::Refuted(derivation)),
        Ok(Decision::Point(point)) => Ok(Verdict::Stopped(Stop::Point(point))),
        Err(FindFault::Overflow(_)) => Ok(Verdict::Stopped(Stop::Overflow)),
        Err(FindFault::Limit(_)) => Ok(Verdict::Stopped(Stop::Rows)),
        Err(FindFault::Memory) => Err(RefuteFault::Memory),
    }
}
