//! The check at an access: each point in force reads within the variable's domain.

ghost use Rattle.std.specs.Prelude.{◌≡◌, ◌≤◌, [], ◌∷◌, All, IfOk};
ghost use Rattle.az_lin.specs.Columns.{reading};
ghost use Rattle.formula_refute.specs.Claims.{claim, IsInRange};
ghost use Rattle.formula_refute.specs.Domains.{domain_claim};
ghost use Rattle.domain_check.specs.Checks.{outside_of, reading_within};
ghost use Rattle.domain_check.specs.Context.{in_force};
ghost use Rattle.domain_check.specs.Inner.Built.{Builds};
ghost use Rattle.domain_check.specs.Inner.Ready.{HasRoom, IsReadAt};
ghost use Rattle.az_lin.specs.Affine.{HasEntryDomain};

use crate::build::{BuildFault, in_force, outside_formula};
use az_ast::{Program, Variable};
use az_lin::{Domain, LinFault, Map};
use az_poly::{PolyFault, preimage};
use expr_places::Scope;
use formula_refute::Formula;
use row_columns::reading;
use std::alloc::{AllocError, Global};

/// The parameters, and then the indices read.
fn reading_map(alloc: Global, params: usize, map: &Map) -> Result<Map, AllocError>
    requires { params ≤ map.now.width }
    ensures { IfOk result (λ read. read ≡ reading params map.now) }
{
    match reading(alloc, params, map) {
        Ok(read) => Ok(read),
        Err(LinFault::Memory) => Err(AllocError),
        Err(_) => unreachable!(),
    }
}

/// The points at which the access reads within the variable's domain.
fn reading_within(
    alloc: Global,
    program: &Program,
    scope: &Scope,
    variable: &Variable,
    map: &Map,
) -> Result<Domain, BuildFault>
    requires { IsReadAt program.now scope.now map.now variable.now }
    ensures { Builds (HasEntryDomain (reading_within program.now map.now variable.now)) (λ within. within ≡ reading_within program.now map.now variable.now) result }
{
    let _ = scope;
    let read = reading_map(alloc, program.params().len(), map)?;
    match preimage(alloc, &variable.domain, &read) {
        Ok(within) => Ok(within),
        Err(PolyFault::Entry) => Err(BuildFault::Entry),
        Err(PolyFault::Memory) => Err(BuildFault::Memory),
        Err(PolyFault::Limit(_)) => unreachable!(),
    }
}

/// True where a point in force reads outside the variable's domain.
pub(crate) fn outside(
    alloc: Global,
    program: &Program,
    scope: &Scope,
    variable: &Variable,
    map: &Map,
) -> Result<Formula, BuildFault>
    requires room { HasRoom scope.now }
    requires read { IsReadAt program.now scope.now map.now variable.now }
    ensures { let within = reading_within program.now map.now variable.now in
        Builds (All IsInRange (domain_claim within ∷ outside_of within ∷ [])) (λ formula. claim formula ≡ in_force scope.now (outside_of within ∷ [])) result }
{
    match reading_within(alloc, program, scope, variable, map) {
        Ok(within) => match outside_formula(alloc, &within) {
            Ok(outside) => {
                let mut further = Vec::new(alloc);
                further.push(outside)?;
                Ok(in_force(alloc, scope, further)?)
            }
            Err(fault) => Err(fault),
        },
        Err(fault) => Err(fault),
    }
}
