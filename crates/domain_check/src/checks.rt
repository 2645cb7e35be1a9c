//! The checks of one kind at one place, and over a variable's domain.

ghost use Rattle.std.specs.Prelude.{◌≡◌, ◌≤◌, ◌+◌, [], ◌∷◌, All, length, map, IfOk};
ghost use Rattle.expr_places.specs.Lent.{place_of};
ghost use Rattle.formula_refute.specs.Claims.{claim, IsInRange};
ghost use Rattle.domain_check.specs.Checks.{overlaps, gap, outside_of, checks_at, unbounded};
ghost use Rattle.domain_check.specs.Directions.{directions_in};
ghost use Rattle.domain_check.specs.Stops.{FitsAt};
ghost use Rattle.domain_check.specs.Inner.Built.{Builds, checks_of};
ghost use Rattle.domain_check.specs.Inner.Ready.{HasRoom, IsReady};
ghost use Rattle.domain_check.specs.declared.fault.CheckKind.TheVariants.{Overlap, Gap, Endless};

use crate::CheckKind;
use crate::branches::{gap, overlaps};
use crate::build::BuildFault;
use crate::directions::{Own, directions_in};
use crate::read::outside;
use az_ast::{Branch, Program, Variable};
use az_lin::{Domain, Map};
use expr_places::{Part, Place, Scope};
use formula_refute::Formula;
use std::alloc::{AllocError, Global};

/// Formulas that must be false at all whole points of so many columns.
#[derive(Debug, Drop)]
pub(crate) struct Checks {
    pub(crate) kind: CheckKind,
    pub(crate) width: usize,
    pub(crate) formulas: Vec<Formula>,
}

fn single(
    alloc: Global,
    kind: CheckKind,
    width: usize,
    formula: Formula,
) -> Result<Checks, AllocError>
    ensures { IfOk result (λ checks. checks_of checks ≡ record { kind = kind; width = width; claims = claim formula ∷ [] }) }
{
    let mut formulas = Vec::new(alloc);
    formulas.push(formula)?;
    Ok(Checks {
        kind,
        width,
        formulas,
    })
}

fn alone(alloc: Global, checks: Checks) -> Result<Vec<Checks>, AllocError>
    ensures { IfOk result (λ list. list.items ≡ checks ∷ []) }
{
    let mut list = Vec::new(alloc);
    list.push(checks)?;
    Ok(list)
}

/// No direction of the reduction's own indices goes on for ever.
fn endless(
    alloc: Global,
    program: &Program,
    scope: &Scope,
    domain: &Domain,
    extra: usize,
) -> Result<Checks, AllocError>
    requires { scope.now.width + extra ≤ 64 }
    ensures { IfOk result (λ checks. checks_of checks ≡ record { kind = Endless; width = extra; claims = directions_in (program.now.pdom ∷ scope.now.reductions) domain.now scope.now.width extra }) }
{
    let mut around = Vec::new(alloc);
    around.push(program.pdom())?;
    around.extend_from_slice(scope.reductions.as_slice())?;
    let own = Own {
        outer: scope.width,
        extra,
    };
    Ok(Checks {
        kind: CheckKind::Endless,
        width: extra,
        formulas: directions_in(alloc, around.as_slice(), domain, own)?,
    })
}

/// No direction of the variable's indices goes on for ever.
pub(crate) fn unbounded(
    alloc: Global,
    program: &Program,
    variable: &Variable,
) -> Result<Checks, AllocError>
    requires params { length program.now.params ≤ variable.now.domain.width }
    requires narrow { variable.now.domain.width ≤ 64 }
    ensures { IfOk result (λ checks. checks_of checks ≡ unbounded program.now variable.now) }
{
    let params = program.params().len();
    let own = Own {
        outer: params,
        extra: variable.domain.width() - params,
    };
    Ok(Checks {
        kind: CheckKind::Unbounded,
        width: own.extra,
        formulas: directions_in(alloc, &[], &variable.domain, own)?,
    })
}

/// At a case: no two branches hold a point together, and none is left without one.
fn at_case(alloc: Global, scope: &Scope, branches: &[Branch]) -> Result<Vec<Checks>, BuildFault>
    requires { HasRoom scope.now }
    ensures { let domains = map (λ branch. branch.domain) branches.now in
        Builds (All IsInRange (map outside_of domains)) (λ list. map checks_of list.items ≡
        record { kind = Overlap; width = scope.now.width; claims = overlaps scope.now domains }
        ∷ record { kind = Gap; width = scope.now.width; claims = gap scope.now domains ∷ [] } ∷ []) result }
{
    match gap(alloc, scope, branches) {
        Ok(gap) => {
            let overlap = Checks {
                kind: CheckKind::Overlap,
                width: scope.width,
                formulas: overlaps(alloc, scope, branches)?,
            };
            let gap = single(alloc, CheckKind::Gap, scope.width, gap)?;
            let mut list = Vec::new(alloc);
            list.push(overlap)?;
            list.push(gap)?;
            Ok(list)
        }
        Err(fault) => Err(fault),
    }
}

/// The checks at a place, each kind by itself.
pub(crate) fn checks_at(
    alloc: Global,
    program: &Program,
    place: &Place,
) -> Result<Vec<Checks>, BuildFault>
    requires { IsReady program.now (place_of place.now) }
    ensures { Builds (FitsAt program.now (place_of place.now)) (λ list. map checks_of list.items ≡ checks_at program.now (place_of place.now)) result }
{
    let scope = &place.scope;
    match place.part {
        Part::Case(branches) => at_case(alloc, scope, branches),
        Part::Reduction(extra, domain) => {
            let endless = endless(alloc, program, scope, domain, extra as usize)?;
            Ok(alone(alloc, endless)?)
        }
        Part::Access(variable, map) => {
            let variable = &program.variables()[variable as usize];
            match outside(alloc, program, scope, variable, map) {
                Ok(outside) => {
                    let checks = single(alloc, CheckKind::Outside, scope.width, outside)?;
                    Ok(alone(alloc, checks)?)
                }
                Err(fault) => Err(fault),
            }
        }
    }
}
