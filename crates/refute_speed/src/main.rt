//! How fast formulas are refuted: the lifetime formulas of as many reads of a stencil as the first
//! argument says (1 to 13), by as many workers as the second says, or by `refute` where that is 0.
//! Each formula has 15,552 cases, all of them refuted.
#![tactic(auto)]

mod affine;
mod lifetime;
mod members;

ghost use Rattle.std.specs.Prelude.{◌≤◌};

use formula_refute::{Answer, CaseGate, Front, RefuteFault, Stop, decide_cases_gated, refute};
use lifetime::{STAR, lifetime};
use std::alloc::Global;
use std::env;
use std::process::ExitCode;
use std::thread::Threads;

/// A gate that holds nobody.
struct Open;

impl CaseGate for Open {
    fn before_case(&self, worker: u32, case_no: u32) {
        let _ = worker;
        let _ = case_no;
    }
}

/// The cases of one read's formula, where all are refuted.
fn refuted_cases<R: Threads + Sync>(
    rt: &R,
    alloc: Global,
    offset: &[i128; 3],
    workers: u32,
) -> Result<Option<usize>, RefuteFault>
    requires { workers ≤ 64 }
{
    let formula = lifetime(alloc, offset)?;
    if workers == 0 {
        return match refute(alloc, 10, &formula)? {
            Answer::Yes(derivations) => Ok(Some(derivations.len())),
            Answer::No { .. } => Ok(None),
        };
    }
    match decide_cases_gated(rt, alloc, 10, &formula, workers, &Open)? {
        Front {
            derivations,
            stop: Stop::End,
        } => Ok(Some(derivations.len())),
        _ => Ok(None),
    }
}

fn count<R: Threads + Sync>(
    rt: &R,
    alloc: Global,
    reads: u32,
    workers: u32,
) -> Result<(u64, u64), RefuteFault>
    requires { workers ≤ 64 }
{
    let mut refuted: u64 = 0;
    let mut open: u64 = 0;
    for offset in STAR.iter().take(reads as usize) {
        match refuted_cases(rt, alloc, offset, workers)? {
            Some(cases) => refuted = refuted.saturating_add(cases as u64),
            None => open = open.saturating_add(1),
        }
    }
    Ok((refuted, open))
}

/// The two arguments, or 1 and 0.
fn sizes(rt: &HostRuntime) -> (u32, u32) {
    match env::args(rt) {
        Ok(mut words) => {
            let reads = match words.nth(1) {
                Some(word) => word.as_str().parse::<u32>().unwrap_or(1),
                None => 1,
            };
            let workers = match words.next() {
                Some(word) => word.as_str().parse::<u32>().unwrap_or(0),
                None => 0,
            };
            (reads, workers)
        }
        Err(_) => (1, 0),
    }
}

fn main(rt: HostRuntime) -> ExitCode {
    let alloc = rt.alloc();
    let (reads, workers) = sizes(&rt);
    let Ok((refuted, open)) = count(&rt, alloc, reads, workers.min(64)) else {
        return ExitCode::FAILURE;
    };
    match println!(rt; "refuted {refuted} open {open}") {
        Ok(()) => ExitCode::SUCCESS,
        Err(_) => ExitCode::FAILURE,
    }
}
