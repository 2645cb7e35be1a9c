//! The checks at a case: no two branches hold a point together, and no point is left without one.

ghost use Rattle.std.specs.Prelude.{◌≡◌, ◌++◌, [], ◌∷◌, All, map, IfOk, OnOk};
ghost use Rattle.formula_refute.specs.Claims.{claim, IsInRange};
ghost use Rattle.formula_refute.specs.Domains.{domain_claim};
ghost use Rattle.domain_check.specs.Checks.{overlaps, gap, outside_of};
ghost use Rattle.domain_check.specs.Context.{in_force};
ghost use Rattle.domain_check.specs.Inner.Built.{Builds};
ghost use Rattle.domain_check.specs.Inner.Ready.{HasRoom};

use crate::build::{BuildFault, formula_of, in_force, outside_formula};
use az_ast::Branch;
use az_lin::Domain;
use expr_places::Scope;
use formula_refute::Formula;
use std::alloc::{AllocError, Global};

/// True where both domains hold a point that is in force.
fn overlap(
    alloc: Global,
    scope: &Scope,
    first: &Domain,
    second: &Domain,
) -> Result<Formula, AllocError>
    requires { HasRoom scope.now }
    ensures { IfOk result (λ formula. claim formula ≡ in_force scope.now (domain_claim first.now ∷ domain_claim second.now ∷ [])) }
{
    let mut both = Vec::new(alloc);
    both.push(formula_of(alloc, first)?)?;
    both.push(formula_of(alloc, second)?)?;
    in_force(alloc, scope, both)
}

/// Appends the overlaps of a domain with each of the branches after it.
fn push_overlaps(
    alloc: Global,
    found: &mut Vec<Formula>,
    scope: &Scope,
    first: &Domain,
    rest: &[Branch],
) -> Result<(), AllocError>
    requires { HasRoom scope.now }
    ensures { OnOk result (map claim found.new.items ≡ map claim found.old.items ++ map (λ other. in_force scope.now (domain_claim first.now ∷ domain_claim other.domain ∷ [])) rest.now) }
{
    'rest: for other in rest {
        found.push(overlap(alloc, scope, first, &other.domain)?)?;
    }
    Ok(())
}

/// The overlap of each pair of branches.
pub(crate) fn overlaps(
    alloc: Global,
    scope: &Scope,
    branches: &[Branch],
) -> Result<Vec<Formula>, AllocError>
    requires { HasRoom scope.now }
    ensures { IfOk result (λ found. map claim found.items ≡ overlaps scope.now (map (λ branch. branch.domain) branches.now)) }
{
    let mut found = Vec::new(alloc);
    'branches: for number in 0..branches.len() {
        let first = &branches[number].domain;
        push_overlaps(alloc, &mut found, scope, first, &branches[number + 1..])?;
    }
    Ok(found)
}

fn outsides(alloc: Global, branches: &[Branch]) -> Result<Vec<Formula>, BuildFault>
    ensures { Builds (All IsInRange (map (λ branch. outside_of branch.domain) branches.now)) (λ found. map claim found.items ≡ map (λ branch. outside_of branch.domain) branches.now) result }
{
    let mut found = Vec::new(alloc);
    'branches: for branch in branches {
        match outside_formula(alloc, &branch.domain) {
            Ok(outside) => found.push(outside)?,
            Err(fault) => return Err(fault),
        }
    }
    Ok(found)
}

/// True where no branch holds a point that is in force.
pub(crate) fn gap(alloc: Global, scope: &Scope, branches: &[Branch]) -> Result<Formula, BuildFault>
    requires { HasRoom scope.now }
    ensures { Builds (All IsInRange (map outside_of (map (λ branch. branch.domain) branches.now))) (λ formula. claim formula ≡ gap scope.now (map (λ branch. branch.domain) branches.now)) result }
{
    match outsides(alloc, branches) {
        Ok(outsides) => Ok(in_force(alloc, scope, outsides)?),
        Err(fault) => Err(fault),
    }
}
