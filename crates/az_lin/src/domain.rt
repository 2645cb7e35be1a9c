//! A domain: the points that at least one of its disjuncts holds.

ghost use Rattle.std.specs.Prelude.{◌≡◌, ◌<◌, [], ◌∷◌, All, length, IfOk, IfErr};
ghost use Rattle.az_lin.specs.Affine.{Union, IsOver, HasRowsOver, HasEntryConj};
ghost use Rattle.az_lin.specs.declared.fault.LinFault.TheVariants.{Memory};

use crate::conj::known_parts;
use crate::{Conj, LinFault, List, TryCopy};
use std::alloc::Global;
use std::marker::Model;

#[derive(Debug, Drop)]
pub struct Domain {
    width: usize,
    disjuncts: List<Conj>,
}

impl Model for Domain {
    ghost use Rattle.std.specs.Prelude.{◌<◌, length, All};
    ghost use Rattle.az_lin.specs.Affine.{Union, IsOver, HasRowsOver, HasEntryConj};

    ghost Value = { Union };

    ghost view = { λ domain. record { width = domain.width; disjuncts = domain.disjuncts } };

    ghost invariant = { λ domain. All (IsOver domain.width) domain.disjuncts × (0 < length domain.disjuncts)
        × All (HasRowsOver domain.width) domain.disjuncts × All HasEntryConj domain.disjuncts };
}

impl Domain {
    pub fn of_conj(alloc: Global, conj: Conj) -> Result<Domain, LinFault>
        ensures ok { IfOk result (λ domain. domain ≡ record { width = conj.width; disjuncts = conj ∷ [] }) }
        ensures cause { IfErr result (λ fault. fault ≡ Memory) }
    {
        let width = conj.width();
        conj.known(width);
        let mut disjuncts = List::new(alloc);
        disjuncts.push(conj)?;
        Ok(Domain { width, disjuncts })
    }

    /// The union of the disjuncts, of which there is at least one.
    pub fn of_list(width: usize, conjs: List<Conj>) -> Result<Domain, LinFault>
        requires some { 0 < length conjs }
        requires widths { All (IsOver width) conjs }
        ensures ok { IfOk result (λ domain. domain ≡ record { width = width; disjuncts = conjs }) }
        ensures cause { IfErr result (λ fault. fault ≡ Memory) }
    {
        known_parts(conjs.as_slice(), width);
        Ok(Domain {
            width,
            disjuncts: conjs,
        })
    }

    pub fn width(&self) -> usize
        ensures { result ≡ self.now.width }
    {
        self.width
    }

    pub fn disjuncts(&self) -> &[Conj]
        ensures value { result.now ≡ self.now.disjuncts }
        ensures widths { All (IsOver self.now.width) result.now }
        ensures some { 0 < length result.now }
        ensures rows { All (HasRowsOver self.now.width) result.now }
        ensures entries { All HasEntryConj result.now }
    {
        self.disjuncts.as_slice()
    }
}

impl TryCopy for Domain {
    fn copy(&self, alloc: Global) -> Result<Self, LinFault> {
        let disjuncts = self.disjuncts.copy(alloc)?;
        Ok(Domain {
            width: self.width,
            disjuncts,
        })
    }
}
