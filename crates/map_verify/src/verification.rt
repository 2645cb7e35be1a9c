//! The verification of a mapping, with a certificate.

ghost use Rattle.std.specs.Prelude.{◌≤◌, IfOk};
ghost use Rattle.map_verify.specs.Promise.{IsCertifiedIfYes, IsOnlyAnswer, IsOpenIfNo};
ghost use Rattle.map_verify.specs.Verdicts.{Verifies, IsRefuted};
ghost use Rattle.map_verify.specs.Formulas.{AreReady, formulas};
ghost use Rattle.target_map.specs.Settings.{IsComplete};

use crate::certified::certified_map;
use crate::decided::{Outcome, decide_formulas};
use crate::ready::{Unready, ready_formulas};
use crate::{Verdict, VerifyFault};
use az_ast::Checked;
use az_lin::{Limit, List};
use cert_text::{Certificate, Proved};
use formula_refute::CaseGate;
use std::alloc::Global;
use std::thread::Threads;
use target_map::Mapping;

fn yes(
    alloc: Global,
    checked: &Checked,
    mapping: &Mapping,
    proved: List<Proved>,
) -> Result<Verdict, VerifyFault>
    requires complete { IsComplete checked.now mapping.now }
    requires ready { AreReady checked.now mapping.now }
    requires refuted { IsRefuted (formulas checked.now mapping.now) (record { version = 2; proved = proved }) }
    ensures answer { Verifies checked.now mapping.now result }
    ensures certified { IfOk result (IsCertifiedIfYes checked.now mapping.now) }
{
    let certificate = Certificate { version: 2, proved };
    let certified = certified_map(alloc, checked, mapping)?;
    Ok(Verdict::Yes(certified, certificate))
}

fn verdict_on<R: Threads + Sync, G: CaseGate + Sync>(
    rt: &R,
    alloc: Global,
    checked: &Checked,
    mapping: &Mapping,
    workers: u32,
    gate: &G,
) -> Result<Verdict, VerifyFault>
    requires complete { IsComplete checked.now mapping.now }
    requires some { 1 ≤ workers }
    requires at_most { workers ≤ 64 }
    ensures answer { Verifies checked.now mapping.now result }
    ensures certified { IfOk result (IsCertifiedIfYes checked.now mapping.now) }
{
    let formulas = match ready_formulas(alloc, checked, mapping) {
        Ok(formulas) => formulas,
        Err(Unready::Entry) => return Err(VerifyFault::Entry),
        Err(Unready::TooManyCases) => return Err(VerifyFault::Limit(Limit::Systems)),
        Err(Unready::Memory) => return Err(VerifyFault::Memory),
    };
    match decide_formulas(rt, alloc, formulas.as_slice(), workers, gate) {
        Ok(Outcome::Refuted(proved)) => yes(alloc, checked, mapping, proved),
        Ok(
            Outcome::Open {
                which,
                case_no,
                point,
            },
        ) => Ok(Verdict::No {
            which,
            case_no,
            point,
        }),
        Err(fault) => Err(fault),
    }
}

/// Whether the mapping is certified for all parameters, with a certificate of version 2; else the
/// first case of a formula that isn't refuted. The cases of each formula are shared out over so many
/// workers, and the gate is told before each; the answer is the same for every number of workers.
pub fn verify<R: Threads + Sync, G: CaseGate + Sync>(
    rt: &R,
    alloc: Global,
    checked: &Checked,
    mapping: &Mapping,
    workers: u32,
    gate: &G,
) -> Result<Verdict, VerifyFault>
    requires complete { IsComplete checked.now mapping.now }
    requires some { 1 ≤ workers }
    requires at_most { workers ≤ 64 }
    ensures answer { Verifies checked.now mapping.now result }
    ensures yes { IfOk result (IsCertifiedIfYes checked.now mapping.now) }
    ensures no { IfOk result (IsOpenIfNo checked.now mapping.now) }
    ensures only { IsOnlyAnswer checked.now mapping.now result }
{
    verdict_on(rt, alloc, checked, mapping, workers, gate)
}
