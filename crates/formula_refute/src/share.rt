//! What one worker decides: every so many systems, up to the first that is not refuted.

ghost use Rattle.std.specs.Prelude.{◌≡◌, ◌<◌, ◌≤◌, [], None, length, drop};
ghost use Rattle.formula_refute.specs.Cases.{most_systems};
ghost use Rattle.formula_refute.specs.Inner.Shares.{IsShare};

use crate::case_list::CaseList;
use crate::verdict::Verdict;
use crate::{CaseGate, Stop};
use az_lin::Derivation;
use std::alloc::Global;
use std::collections::VecDeque;

#[derive(Debug, Drop)]
pub(crate) struct Share {
    pub(crate) derivations: VecDeque<Derivation>,
    /// What stands behind the derivations, unless memory ran out there.
    pub(crate) end: Option<Stop>,
}

impl Share {
    pub(crate) fn new(alloc: Global) -> Share
        ensures empty { result.derivations.items ≡ [] }
        ensures open { result.end ≡ None }
    {
        Share {
            derivations: VecDeque::new(alloc),
            end: None,
        }
    }

    /// Decides the system with the worker's number, and then every so many as there are workers.
    pub(crate) fn fill<C: CaseList, G: CaseGate>(
        &mut self,
        alloc: Global,
        cases: &C,
        gate: &G,
        worker: usize,
        workers: usize,
    )
        requires empty { self.old.derivations.items ≡ [] }
        requires open { self.old.end ≡ None }
        requires all { C.valid cases.now }
        requires few { length (C.list cases.now) ≤ most_systems }
        requires number { worker < workers }
        requires at_most { workers ≤ 64 }
        ensures { IsShare workers (drop worker (C.list cases.now)) self.new }
    {
        let count = cases.count();
        let mut place = worker;
        while place < count {
            gate.before_case(worker as u32, place as u32);
            match cases.verdict(alloc, place) {
                Ok(Verdict::Refuted(derivation)) => match self.derivations.push_back(derivation) {
                    Ok(()) => {}
                    Err(_) => return,
                },
                Ok(Verdict::Stopped(stop)) => {
                    self.end = Some(stop);
                    return;
                }
                Err(_) => return,
            }
            place += workers;
        }
        self.end = Some(Stop::End);
    }
}
