//! Systems decided one after another, up to the first that is not refuted.

ghost use Rattle.std.specs.Prelude.{All, IfOk};
ghost use Rattle.formula_refute.specs.Answers.{GivesFront};
ghost use Rattle.formula_refute.specs.Fronts.{IsNarrow, IsOnlyFront};

use crate::RefuteFault;
use crate::case_list::{CaseList, GivenSystems};
use crate::verdict::Verdict;
use az_lin::{Conj, Derivation, List, RatPoint};
use std::alloc::Global;

/// Where a front ends.
#[derive(Debug, Drop)]
pub enum Stop {
    /// Behind the last system: each is refuted.
    End,
    /// At a system that no row refutes, with the point of the elimination.
    Point(RatPoint),
    /// At a system whose elimination leaves ±(2^127 - 1).
    Overflow,
    /// At a system with more rows in a stage than the limit allows.
    Rows,
}

/// The derivations of the systems before the first that is not refuted, and what stands there.
#[derive(Debug, Drop)]
pub struct Front {
    pub derivations: List<Derivation>,
    pub stop: Stop,
}

pub(crate) fn front_of<C: CaseList>(alloc: Global, cases: &C) -> Result<Front, RefuteFault>
    requires { C.valid cases.now }
    ensures { GivesFront (C.list cases.now) result }
{
    let mut derivations = Vec::new(alloc);
    'cases: for number in 0..cases.count() {
        match cases.verdict(alloc, number)? {
            Verdict::Refuted(derivation) => derivations.push(derivation)?,
            Verdict::Stopped(stop) => {
                let derivations = List::from_vec(derivations);
                return Ok(Front { derivations, stop });
            }
        }
    }
    Ok(Front {
        derivations: List::from_vec(derivations),
        stop: Stop::End,
    })
}

/// Decides the systems in order, in the calling thread.
pub fn decide_front(alloc: Global, systems: &[Conj]) -> Result<Front, RefuteFault>
    requires narrow { All IsNarrow systems.now }
    ensures answer { GivesFront systems.now result }
    ensures only { IfOk result (IsOnlyFront systems.now) }
{
    front_of(alloc, &GivenSystems { systems })
}
