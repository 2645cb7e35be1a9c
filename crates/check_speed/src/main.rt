//! How fast programs are certified: one equation, in which as many reductions stand in each other as
//! the first argument says, with as many restrictions around the next as the second says, and an
//! access in each. A restriction has three nodes, and an equation at most 512.
#![tactic(auto)]

use alphabets_read::read_program;
use domain_check::{CertifyFault, certify};
use std::alloc::{AllocError, Global};
use std::env;
use std::process::ExitCode;

/// Reductions and restrictions of an equation of 477 nodes, in which 18 rows and those of 154
/// restrictions stand around the innermost access.
const REDUCTIONS: u32 = 14;

const RESTRICTIONS: u32 = 11;

/// The program's text.
fn written(alloc: Global, reductions: u32, restrictions: u32) -> Result<String, AllocError> {
    let mut text = String::new(alloc);
    text.push_str("affine Deep {N|N>=1} input A {k|0<=k<=N}; output X {k|0<=k<=N}; let X[k] = ")?;
    let mut outer = format!(in alloc; "k")?;
    for reduction in 0..reductions {
        let index = format!(in alloc; "k{reduction}")?;
        text.push_str("reduce(+, [")?;
        text.push_str(index.as_str())?;
        text.push_str("], {|0<=")?;
        text.push_str(index.as_str())?;
        text.push_str("<=")?;
        text.push_str(outer.as_str())?;
        text.push_str("} : ")?;
        for restriction in 0..restrictions {
            let factor = restriction.saturating_add(2);
            text.push_str("({|")?;
            text.push_str(format!(in alloc; "{factor}*{index}+N>=-{factor}")?.as_str())?;
            text.push_str("} : A[")?;
            text.push_str(index.as_str())?;
            text.push_str("] + ")?;
        }
        outer = index;
    }
    text.push_str("1")?;
    for _ in 0..u64::from(reductions) * (u64::from(restrictions) + 1) {
        text.push_str(")")?;
    }
    text.push_str("; .")?;
    Ok(text)
}

/// What the reader or the certifier says of the text.
fn said(alloc: Global, text: &str) -> &'static str {
    let Ok(program) = read_program(alloc, text.as_bytes()) else {
        return "not read";
    };
    match certify(alloc, program) {
        Ok(_) => "certified",
        Err((_, CertifyFault::No(_))) => "refused",
        Err((_, CertifyFault::Limit(_))) => "over a limit",
        Err((_, CertifyFault::Memory)) => "out of memory",
        Err(_) => "out of range",
    }
}

/// The two arguments, or the most of both together.
fn sizes(rt: &HostRuntime) -> (u32, u32) {
    match env::args(rt) {
        Ok(mut words) => {
            let reductions = match words.nth(1) {
                Some(word) => word.as_str().parse::<u32>().unwrap_or(REDUCTIONS),
                None => REDUCTIONS,
            };
            let restrictions = match words.next() {
                Some(word) => word.as_str().parse::<u32>().unwrap_or(RESTRICTIONS),
                None => RESTRICTIONS,
            };
            (reductions, restrictions)
        }
        Err(_) => (REDUCTIONS, RESTRICTIONS),
    }
}

fn main(rt: HostRuntime) -> ExitCode {
    let alloc = rt.alloc();
    let (reductions, restrictions) = sizes(&rt);
    let Ok(text) = written(alloc, reductions, restrictions) else {
        return ExitCode::FAILURE;
    };
    let said = said(alloc, text.as_str());
    match println!(rt; "{said}") {
        Ok(()) => ExitCode::SUCCESS,
        Err(_) => ExitCode::FAILURE,
    }
}
