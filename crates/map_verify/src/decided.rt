//! The formulas decided one after another, case by case, on several workers.

ghost use Rattle.std.specs.Prelude.{◌≡◌, ◌≤◌, All, map, IfOk, IfErr};
ghost use Rattle.formula_refute.specs.Fronts.{IsFront};
ghost use Rattle.map_verify.specs.Formulas.{HasFewCases, systems_of};
ghost use Rattle.map_verify.specs.Inner.Outcomes.{Decides};
ghost use Rattle.map_verify.specs.declared.fault.VerifyFault.TheVariants.{Memory};
ghost use Rattle.order_sets.specs.Stated.{IsRefutable, stated_claim};

use crate::VerifyFault;
use crate::step_count::steps_left;
use az_lin::{Limit, List, RatPoint};
use cert_text::Proved;
use formula_refute::{CaseGate, Front, Stop, decide_cases_gated};
use order_sets::Stated;
use std::alloc::Global;
use std::thread::Threads;
use target_map::Which;

/// The most steps that the derivations of one verdict may have together.
const MOST_STEPS: u64 = 1 << 22;

/// What the cases of formulas come to.
#[derive(Debug, Drop)]
pub(crate) enum Outcome {
    /// Each is refuted.
    Refuted(List<Proved>),
    /// The first that isn't, with the point of the elimination.
    Open {
        which: Which,
        case_no: u32,
        point: RatPoint,
    },
}

fn front_of<R: Threads + Sync, G: CaseGate + Sync>(
    rt: &R,
    alloc: Global,
    stated: &Stated,
    workers: u32,
    gate: &G,
) -> Result<Front, VerifyFault>
    requires refutable { IsRefutable (stated_claim stated.now) }
    requires few { HasFewCases (stated_claim stated.now) }
    requires some { 1 ≤ workers }
    requires at_most { workers ≤ 64 }
    ensures ok { IfOk result (IsFront (systems_of (stated_claim stated.now))) }
    ensures cause { IfErr result (λ fault. fault ≡ Memory) }
{
    match decide_cases_gated(rt, alloc, stated.width, &stated.formula, workers, gate) {
        Ok(front) => Ok(front),
        Err(_) => Err(VerifyFault::Memory),
    }
}

/// Goes from formula to formula, up to the first case that isn't refuted. No more than the systems
/// that the workers are at are held.
pub(crate) fn decide_formulas<R: Threads + Sync, G: CaseGate + Sync>(
    rt: &R,
    alloc: Global,
    formulas: &[Stated],
    workers: u32,
    gate: &G,
) -> Result<Outcome, VerifyFault>
    requires refutable { All IsRefutable (map stated_claim formulas.now) }
    requires few { All HasFewCases (map stated_claim formulas.now) }
    requires some { 1 ≤ workers }
    requires at_most { workers ≤ 64 }
    ensures { Decides (map stated_claim formulas.now) result }
{
    let mut proved = Vec::new(alloc);
    let mut left = MOST_STEPS;
    'formulas: for number in 0..formulas.len() {
        let which = formulas[number].which;
        let front = match front_of(rt, alloc, &formulas[number], workers, gate) {
            Ok(front) => front,
            Err(fault) => return Err(fault),
        };
        let Front { derivations, stop } = front;
        let Some(after) = steps_left(left, derivations.as_slice()) else {
            return Err(VerifyFault::Limit(Limit::Steps));
        };
        let case_no = derivations.len() as u32;
        match stop {
            Stop::End => proved.push(Proved { which, derivations })?,
            Stop::Point(point) => {
                return Ok(Outcome::Open {
                    which,
                    case_no,
                    point,
                });
            }
            Stop::Overflow => return Err(VerifyFault::Overflow { which, case_no }),
            Stop::Rows => return Err(VerifyFault::Limit(Limit::Rows)),
        }
        left = after;
    }
    Ok(Outcome::Refuted(List::from_vec(proved)))
}
