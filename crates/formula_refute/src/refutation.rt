//! The refutation of a formula, case by case.

ghost use Rattle.std.specs.Prelude.{◌≤◌, List, length, IfOk};
ghost use Rattle.az_lin.specs.Affine.{Polyhedron};
ghost use Rattle.formula_refute.specs.Claims.{claim, IsOver};
ghost use Rattle.formula_refute.specs.Cases.{systems, most_systems};
ghost use Rattle.formula_refute.specs.Fronts.{IsFront};
ghost use Rattle.formula_refute.specs.Promise.{Refutes, IsFalseIfYes, IsOpenIfNo};

use crate::formula_cases::FormulaCases;
use crate::front::front_of;
use crate::{Formula, Front, RefuteFault, Stop};
use az_lin::{Derivation, Limit, List, RatPoint};
use std::alloc::Global;

#[derive(Debug, Drop)]
pub enum Answer {
    /// A derivation for each case: the formula is false at all whole points.
    Yes(List<Derivation>),
    /// The first case that is not refuted, and a point that is open for it.
    No { case_no: u32, point: RatPoint },
}

/// The answer that the front of a formula's cases gives.
fn answered(front: Front) -> Result<Answer, RefuteFault>
    requires { length front.derivations ≤ most_systems }
    ensures { (systems : List Polyhedron) → length systems ≤ most_systems → IsFront systems front → Refutes systems result }
{
    let Front { derivations, stop } = front;
    let case_no = derivations.len() as u32;
    match stop {
        Stop::End => Ok(Answer::Yes(derivations)),
        Stop::Point(point) => Ok(Answer::No { case_no, point }),
        Stop::Overflow => Err(RefuteFault::Overflow { case_no }),
        Stop::Rows => Err(RefuteFault::Limit(Limit::Rows)),
    }
}

fn decide_cases(alloc: Global, width: usize, f: &Formula) -> Result<Answer, RefuteFault>
    requires narrow { width ≤ 4096 }
    requires widths { IsOver width (claim f.now) }
    ensures { Refutes (systems width (claim f.now)) result }
{
    let Some(cases) = FormulaCases::new(width, f) else {
        return Err(RefuteFault::Limit(Limit::Systems));
    };
    answered(front_of(alloc, &cases)?)
}

/// Refutes each case of the formula by a derivation, in the calling thread. One case after another
/// is made, decided and dropped, and the first that is not refuted ends it.
pub fn refute(alloc: Global, width: usize, f: &Formula) -> Result<Answer, RefuteFault>
    requires narrow { width ≤ 4096 }
    requires widths { IsOver width (claim f.now) }
    ensures answer { Refutes (systems width (claim f.now)) result }
    ensures yes { IfOk result (IsFalseIfYes (claim f.now)) }
    ensures no { IfOk result (IsOpenIfNo (systems width (claim f.now))) }
{
    decide_cases(alloc, width, f)
}
