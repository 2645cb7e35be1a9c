//! Formulas of domains, and what is in force at a place.

ghost use Rattle.std.specs.Prelude.{◌≡◌, ◌≤◌, All, map, IfOk};
ghost use Rattle.formula_refute.specs.Claims.{claim, IsInRange};
ghost use Rattle.formula_refute.specs.Domains.{domain_claim};
ghost use Rattle.domain_check.specs.Checks.{outside_of};
ghost use Rattle.domain_check.specs.Context.{over, in_force};
ghost use Rattle.domain_check.specs.Inner.Built.{Builds};
ghost use Rattle.domain_check.specs.Inner.Ready.{HasRoom};
ghost use Rattle.domain_check.specs.declared.build.BuildFault.TheVariants.{Memory};

use az_lin::{Domain, LinFault};
use expr_places::Scope;
use formula_refute::{Formula, RefuteFault, domain_formula, negate};
use row_columns::widened_domain;
use sqlite_items::Items;
use std::alloc::{AllocError, AllocFailed, Global};

/// Why a check is not built.
#[derive(Debug, Drop)]
pub(crate) enum BuildFault {
    /// A composed or negated row has an entry out of range.
    Entry,
    Memory,
}

impl From<AllocError> for BuildFault {
    ghost from_gives = { λ _ e. e ≡ Memory };

    fn from(_: AllocError) -> Self {
        BuildFault::Memory
    }
}

impl<T: Drop> From<AllocFailed<T>> for BuildFault {
    ghost from_gives = { λ _ e. e ≡ Memory };

    fn from(_: AllocFailed<T>) -> Self {
        BuildFault::Memory
    }
}

pub(crate) fn formula_of(alloc: Global, domain: &Domain) -> Result<Formula, AllocError>
    ensures { IfOk result (λ formula. claim formula ≡ domain_claim domain.now) }
{
    match domain_formula(alloc, domain) {
        Ok(formula) => Ok(formula),
        Err(RefuteFault::Memory) => Err(AllocError),
        Err(_) => unreachable!(),
    }
}

/// The formula that is true where the domain does not hold the point.
pub(crate) fn outside_formula(alloc: Global, domain: &Domain) -> Result<Formula, BuildFault>
    ensures { Builds (IsInRange (outside_of domain.now)) (λ formula. claim formula ≡ outside_of domain.now) result }
{
    let inside = formula_of(alloc, domain)?;
    match negate(alloc, &inside) {
        Ok(outside) => Ok(outside),
        Err(RefuteFault::Entry) => Err(BuildFault::Entry),
        Err(RefuteFault::Memory) => Err(BuildFault::Memory),
        Err(_) => unreachable!(),
    }
}

/// The formula of a domain over the first columns of a point.
fn formula_over(alloc: Global, width: usize, domain: &Domain) -> Result<Formula, AllocError>
    requires inside { domain.now.width ≤ width }
    requires narrow { width ≤ 64 }
    ensures { IfOk result (λ formula. claim formula ≡ domain_claim (over width domain.now)) }
{
    let own = domain.width();
    match widened_domain(alloc, domain, own, width - own) {
        Ok(wide) => formula_of(alloc, &wide),
        Err(LinFault::Memory) => Err(AllocError),
        Err(_) => unreachable!(),
    }
}

/// True where all that is in force at the place is, and each of the further formulas.
pub(crate) fn in_force(
    alloc: Global,
    scope: &Scope,
    further: Vec<Formula>,
) -> Result<Formula, AllocError>
    requires { HasRoom scope.now }
    ensures { IfOk result (λ formula. claim formula ≡ in_force scope.now (map claim further.items)) }
{
    let mut members = Vec::new(alloc);
    'domains: for domain in scope.domains.as_slice() {
        members.push(formula_over(alloc, scope.width, domain)?)?;
    }
    let mut members = Items::from_vec(members);
    members.append(Items::from_vec(further))?;
    Ok(Formula::All(members))
}
