//! How fast systems are decided: builds and decides the 1,200 case systems of one read of a
//! stencil, as many times as the first argument says, and prints how many are refuted. In the
//! first round the checker reads each derivation.
#![tactic(auto)]

mod cases;
mod refute;

ghost use Rattle.std.specs.Prelude.{◌≡◌, All, IfOk};
ghost use Rattle.az_lin.specs.Affine.{HasWidth};

use az_lin::{Conj, LinFault, List, Row};
use cases::{
    CONTEXT, NOT_BEFORE_READ, NOT_BEFORE_STORE, OTHER_THAN_READ, OTHER_THAN_READER, Rows, SAME_CELL,
};
use farkas_find::{Decision, FindFault, decide};
use refute::is_refuted;
use std::alloc::Global;
use std::env;
use std::process::ExitCode;

/// Why the rounds end early.
#[derive(Debug, Drop)]
enum Stop {
    Rows(LinFault),
    Elimination(FindFault),
}

impl From<LinFault> for Stop {
    fn from(fault: LinFault) -> Self {
        Stop::Rows(fault)
    }
}

impl From<FindFault> for Stop {
    fn from(fault: FindFault) -> Self {
        Stop::Elimination(fault)
    }
}

#[derive(Debug, Clone, Copy, PartialEq, Eq)]
struct Tally {
    refuted: u64,
    open: u64,
}

fn row(alloc: Global, numbers: &[i128; 7]) -> Result<Row, LinFault>
    ensures { IfOk result (λ row. HasWidth 6 row) }
{
    let [a, b, c, d, e, f, konst] = *numbers;
    Row::new(alloc, &[a, b, c, d, e, f], konst)
}

/// The rows of one part after another, of whose columns there are six.
fn system(alloc: Global, parts: &[Rows; 6]) -> Result<Conj, LinFault>
    ensures { IfOk result (λ conj. conj.width ≡ 6) }
{
    let mut rows = Vec::with_capacity(alloc, 24)?;
    'parts: for part in parts {
        'rows: for numbers in *part {
            rows.push(row(alloc, numbers)?)?;
        }
    }
    Ok(Conj::new(6, List::from_vec(rows)))
}

impl Tally {
    fn count(&mut self, refuted: bool) {
        if refuted {
            self.refuted = self.refuted.saturating_add(1);
        } else {
            self.open = self.open.saturating_add(1);
        }
    }
}

/// Decides the system, and has the derivation checked where that is asked for.
fn judge(alloc: Global, parts: &[Rows; 6], checked: bool) -> Result<bool, Stop> {
    let system = system(alloc, parts)?;
    if checked {
        return Ok(is_refuted(alloc, &system)?);
    }
    match decide(alloc, &system)? {
        Decision::Refuted(_) => Ok(true),
        Decision::Point(_) => Ok(false),
    }
}

fn round(alloc: Global, tally: &mut Tally, checked: bool) -> Result<(), Stop> {
    for same in SAME_CELL {
        for other in OTHER_THAN_READ {
            for after in NOT_BEFORE_READ {
                for reader in OTHER_THAN_READER {
                    for store in NOT_BEFORE_STORE {
                        let parts = [CONTEXT, same, other, after, reader, store];
                        tally.count(judge(alloc, &parts, checked)?);
                    }
                }
            }
        }
    }
    Ok(())
}

fn rounds(alloc: Global, times: u32) -> Result<Tally, Stop> {
    let mut tally = Tally {
        refuted: 0,
        open: 0,
    };
    for number in 0..times {
        round(alloc, &mut tally, number == 0)?;
    }
    Ok(tally)
}

/// The first argument, or 1.
fn times(rt: &HostRuntime) -> u32 {
    match env::args(rt) {
        Ok(mut words) => match words.nth(1) {
            Some(word) => word.as_str().parse::<u32>().unwrap_or(1),
            None => 1,
        },
        Err(_) => 1,
    }
}

fn main(rt: HostRuntime) -> ExitCode {
    let alloc = rt.alloc();
    let Ok(tally) = rounds(alloc, times(&rt)) else {
        return ExitCode::FAILURE;
    };
    let Tally { refuted, open } = tally;
    match println!(rt; "refuted {refuted} open {open}") {
        Ok(()) => ExitCode::SUCCESS,
        Err(_) => ExitCode::FAILURE,
    }
}
