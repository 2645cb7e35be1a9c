//! A conjunction and a domain that are ready to be asked for many points.

ghost use Rattle.std.specs.Prelude.{◌≡◌, ◌≤◌, ◌↔◌, length, All, IfOk, IsTrue};
ghost use Rattle.az_lin.specs.Affine.{IsCoordinate, HasWidth, IsOver, Holds, HoldsSome};

use crate::QuickRow;
use crate::map::quick_rows;
use az_lin::{Conj, Domain, List};
use std::alloc::{AllocError, Global};
use std::marker::Model;

#[derive(Debug, Drop)]
pub struct QuickConj {
    width: usize,
    rows: List<QuickRow>,
}

impl Model for QuickConj {
    ghost use Rattle.std.specs.Prelude.{All};
    ghost use Rattle.az_lin.specs.Affine.{Polyhedron, HasWidth};

    ghost Value = { Polyhedron };

    ghost view = { λ conj. record { width = conj.width; rows = conj.rows } };

    ghost invariant = { λ conj. All (HasWidth conj.width) conj.rows };
}

impl QuickConj {
    pub fn of_conj(alloc: Global, conj: &Conj) -> Result<QuickConj, AllocError>
        ensures { IfOk result (λ quick. quick ≡ conj.now) }
    {
        let rows = quick_rows(alloc, conj.rows())?;
        Ok(QuickConj {
            width: conj.width(),
            rows,
        })
    }

    fn rows(&self) -> &[QuickRow]
        ensures value { result.now ≡ self.now.rows }
        ensures widths { All (HasWidth self.now.width) result.now }
    {
        self.rows.as_slice()
    }

    /// Whether each row is at least 0 at `z`. The limits of `Row::value` hold.
    pub fn holds(&self, z: &[i128]) -> bool
        requires width { length z.now ≡ self.now.width }
        requires narrow { length z.now ≤ 64 }
        requires range { All IsCoordinate z.now }
        ensures { IsTrue result ↔ Holds self.now z.now }
    {
        self.rows().iter().all(|row| row.value(z) >= 0)
    }
}

#[derive(Debug, Drop)]
pub struct QuickDomain {
    width: usize,
    disjuncts: List<QuickConj>,
}

impl Model for QuickDomain {
    ghost use Rattle.std.specs.Prelude.{All};
    ghost use Rattle.az_lin.specs.Affine.{Union, IsOver};

    ghost Value = { Union };

    ghost view = { λ domain. record { width = domain.width; disjuncts = domain.disjuncts } };

    ghost invariant = { λ domain. All (IsOver domain.width) domain.disjuncts };
}

fn quick_conjs(alloc: Global, conjs: &[Conj]) -> Result<List<QuickConj>, AllocError>
    ensures { IfOk result (λ quick. quick ≡ conjs.now) }
{
    let mut quick = Vec::with_capacity(alloc, conjs.len())?;
    'conjs: for conj in conjs {
        quick.push(QuickConj::of_conj(alloc, conj)?)?;
    }
    Ok(List::from_vec(quick))
}

impl QuickDomain {
    pub fn of_domain(alloc: Global, domain: &Domain) -> Result<QuickDomain, AllocError>
        ensures { IfOk result (λ quick. quick ≡ domain.now) }
    {
        let disjuncts = quick_conjs(alloc, domain.disjuncts())?;
        Ok(QuickDomain {
            width: domain.width(),
            disjuncts,
        })
    }

    fn disjuncts(&self) -> &[QuickConj]
        ensures value { result.now ≡ self.now.disjuncts }
        ensures widths { All (IsOver self.now.width) result.now }
    {
        self.disjuncts.as_slice()
    }

    /// Whether some disjunct holds `z`. The limits of `Row::value` hold.
    pub fn holds(&self, z: &[i128]) -> bool
        requires width { length z.now ≡ self.now.width }
        requires narrow { length z.now ≤ 64 }
        requires range { All IsCoordinate z.now }
        ensures { IsTrue result ↔ HoldsSome self.now z.now }
    {
        self.disjuncts().iter().any(|conj| conj.holds(z))
    }
}
