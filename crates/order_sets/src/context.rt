//! Formulas of domains: of those in force at a place, and of others.

ghost use Rattle.std.specs.Prelude.{◌≡◌, ◌≤◌, ◌∷◌, ◌++◌, [], List, All, OnOk, IfOk, map};
ghost use Rattle.domain_check.specs.Context.{over, context};
ghost use Rattle.expr_places.specs.declared.scope.Scope.{Scope};
ghost use Rattle.formula_refute.specs.Claims.{Claim, claim, IsInRange};
ghost use Rattle.formula_refute.specs.Domains.{domain_claim};
ghost use Rattle.order_sets.specs.Made.{AreMade};

use crate::Members;
use az_lin::{Domain, LinFault};
use expr_places::Scope;
use formula_refute::{Formula, RefuteFault, domain_formula};
use row_columns::widened_domain;
use std::alloc::{AllocError, Global};

/// The formula of a domain, whose rows are in range.
fn formula_of(alloc: Global, domain: &Domain) -> Result<Formula, AllocError>
    ensures { IfOk result (λ formula. (claim formula ≡ domain_claim domain.now) × IsInRange (domain_claim domain.now)) }
{
    let _ = domain.disjuncts();
    match domain_formula(alloc, domain) {
        Ok(formula) => Ok(formula),
        Err(RefuteFault::Memory) => Err(AllocError),
        Err(_) => unreachable!(),
    }
}

/// The point is in the domain.
pub fn push_domain(members: &mut Members, alloc: Global, domain: &Domain) -> Result<(), AllocError>
    ensures { (cs : List Claim) → OnOk result (AreMade cs members.old → AreMade (cs ++ domain_claim domain.now ∷ []) members.new) }
{
    let formula = formula_of(alloc, domain)?;
    members.push(Some(formula))?;
    Ok(())
}

/// The domain over so many columns, of which it has the first.
fn over(alloc: Global, width: usize, domain: &Domain) -> Result<Domain, AllocError>
    requires inside { domain.now.width ≤ width }
    requires narrow { width ≤ 4096 }
    ensures { IfOk result (λ wide. wide ≡ over width domain.now) }
{
    let own = domain.width();
    match widened_domain(alloc, domain, own, width - own) {
        Ok(wide) => Ok(wide),
        Err(LinFault::Memory) => Err(AllocError),
        Err(_) => unreachable!(),
    }
}

/// What is in force at the place, over so many columns.
pub fn context_over(alloc: Global, scope: &Scope, width: usize) -> Result<Vec<Domain>, AllocError>
    requires inside { All (λ domain. domain.width ≤ width) scope.now.domains }
    requires narrow { width ≤ 4096 }
    ensures { IfOk result (λ wide. wide.items ≡ map (over width) scope.now.domains) }
{
    let domains = scope.domains.as_slice();
    let mut wide = Vec::with_capacity(alloc, domains.len())?;
    'domains: for domain in domains {
        wide.push(over(alloc, width, domain)?)?;
    }
    Ok(wide)
}

/// The point is in each of the domains.
pub fn push_domains(
    members: &mut Members,
    alloc: Global,
    domains: &[Domain],
) -> Result<(), AllocError>
    ensures { (cs : List Claim) → OnOk result (AreMade cs members.old → AreMade (cs ++ map domain_claim domains.now) members.new) }
{
    'domains: for domain in domains {
        push_domain(members, alloc, domain)?;
    }
    Ok(())
}

/// All that is in force at the place is, over so many columns.
pub fn push_context(
    members: &mut Members,
    alloc: Global,
    scope: &Scope,
    width: usize,
) -> Result<(), AllocError>
    requires inside { All (λ domain. domain.width ≤ width) scope.now.domains }
    requires narrow { width ≤ 4096 }
    ensures { (cs : List Claim) → OnOk result (AreMade cs members.old → AreMade (cs ++ context (record scope.now { width = width })) members.new) }
{
    let domains = context_over(alloc, scope, width)?;
    push_domains(members, alloc, domains.as_slice())
}
