//! Systems that are decided by their numbers, each when its turn comes.

ghost use Rattle.std.specs.Prelude.{◌≡◌, ◌<◌, All, IfOk, IfErr, List, length, drop};
ghost use Rattle.az_lin.specs.Affine.{Polyhedron};
ghost use Rattle.formula_refute.specs.Fronts.{IsNarrow};
ghost use Rattle.formula_refute.specs.Inner.Verdicts.{AnswersFirst};
ghost use Rattle.formula_refute.specs.declared.fault.RefuteFault.TheVariants.{Memory};

use crate::RefuteFault;
use crate::verdict::{Verdict, verdict_on};
use az_lin::Conj;
use std::alloc::Global;

pub(crate) trait CaseList {
    ghost list: { Self → List Polyhedron };

    /// What a list has to be for its systems to be decided.
    ghost valid: { Self → Type 0 };

    fn count(&self) -> usize
        requires { valid self.now }
        ensures { result ≡ length (list self.now) };

    fn verdict(&self, alloc: Global, number: usize) -> Result<Verdict, RefuteFault>
        requires all { valid self.now }
        requires here { number < length (list self.now) }
        ensures ok { IfOk result (AnswersFirst (drop number (list self.now))) }
        ensures cause { IfErr result (λ fault. fault ≡ Memory) };
}

/// Systems that a caller has made.
#[derive(Drop)]
pub(crate) struct GivenSystems<'a> {
    pub(crate) systems: &'a [Conj],
}

impl<'a> CaseList for GivenSystems<'a> {
    ghost list = { λ given. given.systems.now };

    ghost valid = { λ given. All IsNarrow given.systems.now };

    fn count(&self) -> usize {
        self.systems.len()
    }

    fn verdict(&self, alloc: Global, number: usize) -> Result<Verdict, RefuteFault> {
        verdict_on(alloc, &self.systems[number])
    }
}
