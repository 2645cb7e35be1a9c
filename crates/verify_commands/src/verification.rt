//! Whether a mapping is verified, and why it isn't.

ghost use Rattle.std.specs.Prelude.{◌≤◌, Some, option_map, IfOk};
ghost use Rattle.map_verify.specs.Promise.{IsAccepted};
ghost use Rattle.session_state.specs.Session.{IsVerified};
ghost use Rattle.session_state.specs.Steps.{TakesAlone, IsStopFor, unless};
ghost use Rattle.session_state.specs.declared.refusal.Refusal.TheVariants.{Command, MappingNo};
ghost use Rattle.target_map.specs.Refusals.{unmapped_from};
ghost use Rattle.target_map.specs.Settings.{Fits, IsComplete};
ghost use Rattle.verify_commands.specs.Verification.{formula_name, fault_refusal, decided, verification};

use crate::names::formula_name;
use az_ast::{Checked, Program, Reason};
use az_lin::RatPoint;
use formula_refute::CaseGate;
use map_verify::{Verdict, VerifyFault, verify};
use session_state::{Refusal, Spot, Stop, Verified};
use std::alloc::Global;
use std::thread::Threads;
use target_map::{MapFault, Mapping, Which};

/// Each output and local has both maps.
fn completed(alloc: Global, program: &Program, mapping: &Mapping) -> Result<(), Stop>
    requires { Fits program.now mapping.now }
    ensures answer { TakesAlone (unless (option_map Command (unmapped_from mapping.now 0 program.now.variables))) result }
    ensures complete { IfOk result (λ _. IsComplete program.now mapping.now) }
{
    match mapping.complete(alloc, program) {
        Ok(()) => Ok(()),
        Err(MapFault::Reason(reason)) => Err(Stop::Refused(Refusal::Command(reason))),
        Err(MapFault::Memory) => Err(Stop::Memory),
    }
}

/// Why a case that is open stops a command.
fn open_case(alloc: Global, program: &Program, which: Which, case_no: u32, point: RatPoint) -> Stop
    ensures { IsStopFor (Some (MappingNo (formula_name program.now which) case_no point)) result }
{
    match formula_name(alloc, program, which) {
        Ok(formula) => Stop::Refused(Refusal::MappingNo {
            formula,
            case_no,
            point,
        }),
        Err(stop) => stop,
    }
}

/// Why a verification without a verdict stops a command.
fn undecided(alloc: Global, program: &Program, fault: VerifyFault) -> Stop
    ensures { IsStopFor (fault_refusal program.now fault) result }
{
    match fault {
        VerifyFault::Overflow { which, case_no } => match formula_name(alloc, program, which) {
            Ok(formula) => Stop::Refused(Refusal::Overflow(Spot::Mapping { formula, case_no })),
            Err(stop) => stop,
        },
        VerifyFault::Entry => Stop::Refused(Refusal::Command(Reason::Entry)),
        VerifyFault::Limit(limit) => Stop::Refused(Refusal::Limited(limit)),
        VerifyFault::Memory => Stop::Memory,
    }
}

fn decided<R: Threads + Sync, G: CaseGate + Sync>(
    rt: &R,
    alloc: Global,
    checked: &Checked,
    mapping: &Mapping,
    workers: u32,
    gate: &G,
) -> Result<Verified, Stop>
    requires complete { IsComplete checked.now mapping.now }
    requires some { 1 ≤ workers }
    requires at_most { workers ≤ 64 }
    ensures answer { TakesAlone (decided checked.now mapping.now) result }
    ensures sound { IfOk result (IsVerified checked.now mapping.now) }
    ensures shown { IfOk result (λ verified. IsAccepted checked.now mapping.now verified.certificate) }
{
    let program = checked.program();
    let _rules = program.variables();
    match verify(rt, alloc, checked, mapping, workers, gate) {
        Ok(Verdict::Yes(certified, certificate)) => Ok(Verified {
            certified,
            certificate,
        }),
        Ok(
            Verdict::No {
                which,
                case_no,
                point,
            },
        ) => Err(open_case(alloc, program, which, case_no, point)),
        Err(fault) => Err(undecided(alloc, program, fault)),
    }
}

/// The mapping is complete, and then its formulas are refuted case by case, shared out over the workers.
pub(crate) fn verification<R: Threads + Sync, G: CaseGate + Sync>(
    rt: &R,
    alloc: Global,
    checked: &Checked,
    mapping: &Mapping,
    workers: u32,
    gate: &G,
) -> Result<Verified, Stop>
    requires fits { Fits checked.now mapping.now }
    requires some { 1 ≤ workers }
    requires at_most { workers ≤ 64 }
    ensures answer { TakesAlone (verification checked.now mapping.now) result }
    ensures sound { IfOk result (IsVerified checked.now mapping.now) }
    ensures shown { IfOk result (λ verified. IsAccepted checked.now mapping.now verified.certificate) }
{
    completed(alloc, checked.program(), mapping)?;
    decided(rt, alloc, checked, mapping, workers, gate)
}
