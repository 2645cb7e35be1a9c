//! The first look at all places: whether entries are in range, and whether there are too many cases.

ghost use Rattle.std.specs.Prelude.{All, Contains, map};
ghost use Rattle.expr_places.specs.Lent.{place_of};
ghost use Rattle.expr_places.specs.Places.{places_of};
ghost use Rattle.domain_check.specs.Stops.{FitsAt, IsFew, AreFewAt, all_places};
ghost use Rattle.domain_check.specs.Inner.Built.{Builds, checks_of};
ghost use Rattle.domain_check.specs.Inner.Ready.{IsReady};
ghost use Rattle.domain_check.specs.Inner.Walked.{TellsMany};

use crate::build::BuildFault;
use crate::checks::{Checks, checks_at};
use az_ast::{Equation, Program};
use expr_places::{Place, places};
use formula_refute::case_count;
use std::alloc::Global;

/// The most cases that the checks of one kind at one place may have together.
const MOST_CASES: u64 = 1 << 17;

/// Stands for each greater number too.
const TOO_MANY: u64 = MOST_CASES + 1;

fn has_many(checks: &Checks) -> bool
    ensures { TellsMany (IsFew (checks_of checks.now)) result }
{
    let mut count = 0;
    'formulas: for formula in &checks.formulas {
        count = (count + case_count(formula)).min(TOO_MANY);
    }
    MOST_CASES < count
}

fn some_has_many(list: &[Checks]) -> bool
    ensures { TellsMany (All IsFew (map checks_of list.now)) result }
{
    let mut many = false;
    'list: for checks in list {
        many |= has_many(checks);
    }
    many
}

fn survey_place(alloc: Global, program: &Program, place: &Place) -> Result<bool, BuildFault>
    requires { IsReady program.now (place_of place.now) }
    ensures { Builds (FitsAt program.now (place_of place.now)) (TellsMany (AreFewAt program.now (place_of place.now))) result }
{
    match checks_at(alloc, program, place) {
        Ok(list) => Ok(some_has_many(list.as_slice())),
        Err(fault) => Err(fault),
    }
}

fn survey_equation(
    alloc: Global,
    program: &Program,
    equation: &Equation,
) -> Result<bool, BuildFault>
    requires inside { Contains program.now.equations equation.now }
    requires ready { All (IsReady program.now) (places_of program.now equation.now) }
    ensures { Builds (All (FitsAt program.now) (places_of program.now equation.now)) (TellsMany (All (AreFewAt program.now) (places_of program.now equation.now))) result }
{
    let places = places(alloc, program, equation)?;
    let mut many = false;
    'each: for place in &places {
        match survey_place(alloc, program, place) {
            Ok(here) => many |= here,
            Err(fault) => return Err(fault),
        }
    }
    Ok(many)
}

/// Whether the checks of one kind at one place have too many cases together; `Entry` where a made
/// entry is out of range, whatever the cases.
pub(crate) fn survey(alloc: Global, program: &Program) -> Result<bool, BuildFault>
    requires { All (IsReady program.now) (all_places program.now) }
    ensures { Builds (All (FitsAt program.now) (all_places program.now)) (TellsMany (All (AreFewAt program.now) (all_places program.now))) result }
{
    let mut many = false;
    'equations: for equation in program.equations() {
        match survey_equation(alloc, program, equation) {
            Ok(here) => many |= here,
            Err(fault) => return Err(fault),
        }
    }
    Ok(many)
}
