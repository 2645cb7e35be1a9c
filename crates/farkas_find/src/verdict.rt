//! The verdict on a system of rows.

ghost use Rattle.std.specs.Prelude.{◌≡◌, ◌≤◌, All, IfOk};
ghost use Rattle.az_lin.specs.Affine.{HasWidth};
ghost use Rattle.farkas_find.specs.OneAnswer.{Verdict, Agrees};
ghost use Rattle.farkas_find.specs.Verdict.{Decides, ExcludesOther, IsFrugal, IsSmallSystem, IsNoOverflow};

use crate::FindFault;
use crate::back_substitute::point;
use crate::prune::derivation_of;
use crate::run::run_stages;
use crate::stored::stored_rows;
use crate::trail::Ended;
use az_lin::{Conj, Derivation, RatPoint};
use std::alloc::Global;

#[derive(Debug, Drop)]
pub enum Decision {
    /// A derivation refutes the system: no whole point satisfies it.
    Refuted(Derivation),
    /// No row refutes the system, and this point meets its rows, rounded.
    Point(RatPoint),
}

/// Goes through the stages with every column, and then back.
fn judge(alloc: Global, system: &Conj) -> Result<Decision, FindFault>
    requires narrow { system.now.width ≤ 4096 }
    ensures answer { Decides system.now result }
    ensures widths { All (HasWidth system.now.width) system.now.rows }
{
    let given = system.rows();
    let rows = stored_rows(alloc, given)?;
    let width = system.width();
    let finished = run_stages(alloc, None, rows, width)?;
    match finished.ended {
        Ended::Refuted(number) => {
            let steps = finished.steps.as_slice();
            Ok(Decision::Refuted(derivation_of(alloc, number, given.len() as u32, steps)?))
        }
        Ended::Left(_) => match point(alloc, width, finished.trail.as_slice(), given)? {
            Some(point) => Ok(Decision::Point(point)),
            None => Err(FindFault::Overflow(finished.trail.len() as u32)),
        },
    }
}

/// Refutes the system by a derivation, or shows by a point that no row refutes it.
pub fn decide(alloc: Global, system: &Conj) -> Result<Decision, FindFault>
    requires narrow { system.now.width ≤ 4096 }
    ensures answer { Decides system.now result }
    ensures only { (other : Verdict) → Decides system.now other → Agrees result other }
    ensures one { IfOk result (ExcludesOther system.now) }
    ensures frugal { IfOk result (IsFrugal system.now) }
    ensures small { IsSmallSystem system.now → IsNoOverflow result }
{
    judge(alloc, system)
}
