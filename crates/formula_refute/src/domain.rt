//! The formula of a domain.

ghost use Rattle.std.specs.Prelude.{◌≡◌, ◌↔◌, All, IfOk, IfErr, List, ℤ};
ghost use Rattle.az_lin.specs.Affine.{HoldsSome};
ghost use Rattle.formula_refute.specs.Claims.{claim, IsOver, IsTrueAt};
ghost use Rattle.formula_refute.specs.Domains.{conj_claim, claim_of_disjuncts, domain_claim};
ghost use Rattle.formula_refute.specs.declared.fault.RefuteFault.TheVariants.{Memory};

use crate::copy::copied;
use crate::{Formula, RefuteFault};
use az_lin::{Conj, Domain};
use sqlite_items::Items;
use std::alloc::Global;

fn conj_formula(alloc: Global, conj: &Conj) -> Result<Formula, RefuteFault>
    ensures ok { IfOk result (λ formula. claim formula ≡ conj_claim conj.now) }
    ensures width { IfOk result (λ formula. IsOver conj.now.width (claim formula)) }
    ensures cause { IfErr result (λ fault. fault ≡ Memory) }
{
    let rows = conj.rows();
    let mut atoms = Vec::with_capacity(alloc, rows.len())?;
    'rows: for row in rows {
        atoms.push(Formula::Atom(copied(alloc, row)?))?;
    }
    Ok(Formula::All(Items::from_vec(atoms)))
}

fn union_formula(alloc: Global, width: usize, disjuncts: &[Conj]) -> Result<Formula, RefuteFault>
    requires { All (λ conj. conj.width ≡ width) disjuncts.now }
    ensures ok { IfOk result (λ formula. claim formula ≡ claim_of_disjuncts disjuncts.now) }
    ensures width { IfOk result (λ formula. IsOver width (claim formula)) }
    ensures cause { IfErr result (λ fault. fault ≡ Memory) }
{
    if disjuncts.len() == 1 {
        return conj_formula(alloc, &disjuncts[0]);
    }
    let mut members = Vec::with_capacity(alloc, disjuncts.len())?;
    'disjuncts: for conj in disjuncts {
        members.push(conj_formula(alloc, conj)?)?;
    }
    Ok(Formula::Any(Items::from_vec(members)))
}

/// True where the domain holds the point: all rows of the one disjunct, or any of several.
pub fn domain_formula(alloc: Global, domain: &Domain) -> Result<Formula, RefuteFault>
    ensures ok { IfOk result (λ formula. claim formula ≡ domain_claim domain.now) }
    ensures width { IfOk result (λ formula. IsOver domain.now.width (claim formula)) }
    ensures meaning { (z : List ℤ) → IfOk result (λ formula. IsTrueAt z (claim formula) ↔ HoldsSome domain.now z) }
    ensures cause { IfErr result (λ fault. fault ≡ Memory) }
{
    union_formula(alloc, domain.width(), domain.disjuncts())
}
