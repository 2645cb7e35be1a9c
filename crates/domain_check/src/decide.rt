//! The cases of the checks decided in order, up to the first that isn't refuted.

ghost use Rattle.std.specs.Prelude.{◌≡◌, ◌≤◌, ◌<◌, ◌+◌, ◌^◌, All, Contains, length, map};
ghost use Rattle.std.specs.List.{flat_map};
ghost use Rattle.expr_places.specs.Lent.{place_of};
ghost use Rattle.expr_places.specs.Places.{places_of};
ghost use Rattle.formula_refute.specs.Cases.{systems, most_systems};
ghost use Rattle.formula_refute.specs.Claims.{claim, IsOver};
ghost use Rattle.domain_check.specs.Cases.{cases_of, cases_of_claim, cases_at, domain_series, domain_series_from, equation_series, all_series};
ghost use Rattle.domain_check.specs.Checks.{unbounded};
ghost use Rattle.domain_check.specs.Stops.{FitsAt, IsFew, AreFewAt, IsDecidable};
ghost use Rattle.domain_check.specs.Inner.Built.{checks_of};
ghost use Rattle.domain_check.specs.Inner.Ready.{IsReadyChecks, IsReady, IsReadyProgram};
ghost use Rattle.domain_check.specs.Inner.Walked.{DecidesCases, DecidesSeries, DecidesAll};

use crate::build::BuildFault;
use crate::checks::{Checks, checks_at, unbounded};
use crate::{CertifyFault, CheckKind, CheckNo};
use az_ast::{Equation, Program, Variable};
use az_lin::Limit;
use expr_places::{Place, places};
use formula_refute::{Answer, Formula, RefuteFault, refute};
use std::alloc::Global;

/// Where the next case stands in the numbering: the variable, and the number.
#[derive(Debug, Clone, Copy)]
pub(crate) struct Numbering {
    pub(crate) variable: u32,
    pub(crate) next: u32,
}

/// Decides the cases of a formula, and gives the number after the last.
fn decide_formula(
    alloc: Global,
    kind: CheckKind,
    at: Numbering,
    width: usize,
    formula: &Formula,
) -> Result<u32, CertifyFault>
    requires narrow { width ≤ 4096 }
    requires widths { IsOver width (claim formula.now) }
    requires few { length (systems width (claim formula.now)) ≤ most_systems }
    requires room { at.next + length (systems width (claim formula.now)) < 2 ^ 32 }
    ensures { DecidesCases at.variable at.next (cases_of_claim kind width (claim formula.now)) result }
{
    let variable = at.variable;
    match refute(alloc, width, formula) {
        Ok(Answer::Yes(derivations)) => Ok(at.next + derivations.len() as u32),
        Ok(Answer::No { case_no, point }) => Err(CertifyFault::No(CheckNo {
            kind,
            variable,
            case_no: at.next + case_no,
            point,
        })),
        Err(RefuteFault::Overflow { case_no }) => Err(CertifyFault::Overflow {
            kind,
            variable,
            case_no: at.next + case_no,
        }),
        Err(RefuteFault::Limit(_)) => Err(CertifyFault::Limit(Limit::Rows)),
        Err(RefuteFault::Entry) => unreachable!(),
        Err(RefuteFault::Memory) => Err(CertifyFault::Memory),
    }
}

fn decide_checks(alloc: Global, at: Numbering, checks: &Checks) -> Result<u32, CertifyFault>
    requires ready { IsReadyChecks (checks_of checks.now) }
    requires few { IsFew (checks_of checks.now) }
    requires room { at.next + length (cases_of (checks_of checks.now)) < 2 ^ 32 }
    ensures { DecidesCases at.variable at.next (cases_of (checks_of checks.now)) result }
{
    let mut at = at;
    'formulas: for formula in &checks.formulas {
        match decide_formula(alloc, checks.kind, at, checks.width, formula) {
            Ok(next) => at.next = next,
            Err(fault) => return Err(fault),
        }
    }
    Ok(at.next)
}

fn decide_place(
    alloc: Global,
    program: &Program,
    at: Numbering,
    place: &Place,
) -> Result<u32, CertifyFault>
    requires ready { IsReady program.now (place_of place.now) }
    requires fits { FitsAt program.now (place_of place.now) }
    requires few { AreFewAt program.now (place_of place.now) }
    requires room { at.next + length (cases_at program.now (place_of place.now)) < 2 ^ 32 }
    ensures { DecidesCases at.variable at.next (cases_at program.now (place_of place.now)) result }
{
    let list = match checks_at(alloc, program, place) {
        Ok(list) => list,
        Err(BuildFault::Entry) => unreachable!(),
        Err(BuildFault::Memory) => return Err(CertifyFault::Memory),
    };
    let mut at = at;
    'checks: for checks in &list {
        match decide_checks(alloc, at, checks) {
            Ok(next) => at.next = next,
            Err(fault) => return Err(fault),
        }
    }
    Ok(at.next)
}

fn decide_equation(
    alloc: Global,
    program: &Program,
    equation: &Equation,
) -> Result<(), CertifyFault>
    requires inside { Contains program.now.equations equation.now }
    requires ready { All (IsReady program.now) (places_of program.now equation.now) }
    requires fits { All (FitsAt program.now) (places_of program.now equation.now) }
    requires few { All (AreFewAt program.now) (places_of program.now equation.now) }
    requires room { length (flat_map (cases_at program.now) (places_of program.now equation.now)) < 2 ^ 32 }
    ensures { DecidesSeries (equation_series program.now equation.now) result }
{
    let places = places(alloc, program, equation)?;
    let mut at = Numbering {
        variable: equation.variable,
        next: 0,
    };
    'each: for place in &places {
        match decide_place(alloc, program, at, place) {
            Ok(next) => at.next = next,
            Err(fault) => return Err(fault),
        }
    }
    Ok(())
}

fn decide_domain(
    alloc: Global,
    program: &Program,
    number: u32,
    variable: &Variable,
) -> Result<(), CertifyFault>
    requires params { length program.now.params ≤ variable.now.domain.width }
    requires narrow { variable.now.domain.width ≤ 64 }
    requires ready { IsReadyChecks (unbounded program.now variable.now) }
    requires few { IsFew (unbounded program.now variable.now) }
    ensures { DecidesSeries (domain_series program.now number variable.now) result }
{
    let checks = unbounded(alloc, program, variable)?;
    let at = Numbering {
        variable: number,
        next: 0,
    };
    match decide_checks(alloc, at, &checks) {
        Ok(_) => Ok(()),
        Err(fault) => Err(fault),
    }
}

fn decide_domains(alloc: Global, program: &Program) -> Result<(), CertifyFault>
    requires { IsReadyProgram program.now }
    ensures { DecidesAll (domain_series_from program.now 0 program.now.variables) result }
{
    let variables = program.variables();
    'variables: for number in 0..variables.len() {
        match decide_domain(alloc, program, number as u32, &variables[number]) {
            Ok(()) => {}
            Err(fault) => return Err(fault),
        }
    }
    Ok(())
}

fn decide_equations(alloc: Global, program: &Program) -> Result<(), CertifyFault>
    requires ready { IsReadyProgram program.now }
    requires decidable { IsDecidable program.now }
    ensures { DecidesAll (map (equation_series program.now) program.now.equations) result }
{
    'equations: for equation in program.equations() {
        match decide_equation(alloc, program, equation) {
            Ok(()) => {}
            Err(fault) => return Err(fault),
        }
    }
    Ok(())
}

/// Decides the cases of all checks.
pub(crate) fn decide(alloc: Global, program: &Program) -> Result<(), CertifyFault>
    requires ready { IsReadyProgram program.now }
    requires decidable { IsDecidable program.now }
    ensures { DecidesAll (all_series program.now) result }
{
    match decide_domains(alloc, program) {
        Ok(()) => decide_equations(alloc, program),
        Err(fault) => Err(fault),
    }
}
