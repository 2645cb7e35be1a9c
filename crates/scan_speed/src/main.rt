//! How fast points come: scans a triangle of 2,001,000 points and a thin band in a box of more than
//! 10^13, each as many times as its argument says, and prints how many points came.
#![tactic(auto)]

ghost use Rattle.std.specs.Prelude.{◌≡◌, length, IfOk};
ghost use Rattle.az_lin.specs.Affine.{HasWidth};

use az_lin::{Conj, Domain, List, Row};
use loop_scan::{ScanFault, Scanner};
use std::alloc::Global;
use std::env;
use std::process::ExitCode;

/// The coefficients of i and j, and the constant.
type Rows = &'static [[i128; 3]];

/// 0 <= i <= 1999 and 0 <= j <= i.
const TRIANGLE: Rows = &[[1, 0, 0], [-1, 0, 1999], [0, 1, 0], [1, -1, 0]];

/// 0 <= i <= 4095 and 2^20 i <= j <= 2^20 i + 1.
const BAND: Rows = &[[1, 0, 0], [-1, 0, 4095], [-1048576, 1, 0], [1048576, -1, 1]];

fn row(alloc: Global, numbers: &[i128; 3]) -> Result<Row, ScanFault>
    ensures { IfOk result (HasWidth 2) }
{
    let [i, j, konst] = *numbers;
    match Row::new(alloc, &[i, j], konst) {
        Ok(row) => Ok(row),
        Err(_) => Err(ScanFault::Memory),
    }
}

fn domain(alloc: Global, lines: Rows) -> Result<Domain, ScanFault>
    ensures { IfOk result (λ domain. domain.width ≡ 2) }
{
    let mut rows = Vec::with_capacity(alloc, 4)?;
    'rows: for line in lines {
        rows.push(row(alloc, line)?)?;
    }
    match Domain::of_conj(alloc, Conj::new(2, List::from_vec(rows))) {
        Ok(domain) => Ok(domain),
        Err(_) => Err(ScanFault::Memory),
    }
}

/// How many points the domain has, by scanning it so many times.
fn scanned(alloc: Global, lines: Rows, times: u32) -> Result<u64, ScanFault> {
    let domain = domain(alloc, lines)?;
    let mut point = [0, 0];
    let mut points: u64 = 0;
    'times: for time in 0..times {
        let _ = time;
        let mut scanner = Scanner::new(alloc, &domain, &[])?;
        'points: while scanner.next_point(&mut point) {
            points = points.saturating_add(1);
        }
    }
    Ok(points)
}

/// The arguments as numbers: how often each domain is scanned, or once.
fn times(rt: &HostRuntime) -> [u32; 2] {
    match env::args(rt) {
        Ok(mut words) => {
            let triangle = words.nth(1);
            let band = words.next();
            [number(triangle), number(band)]
        }
        Err(_) => [1, 1],
    }
}

fn number(word: Option<String>) -> u32 {
    match word {
        Some(word) => word.as_str().parse::<u32>().unwrap_or(1),
        None => 1,
    }
}

fn main(rt: HostRuntime) -> ExitCode {
    let alloc = rt.alloc();
    let [first, second] = times(&rt);
    let Ok(triangle) = scanned(alloc, TRIANGLE, first) else {
        return ExitCode::FAILURE;
    };
    let Ok(band) = scanned(alloc, BAND, second) else {
        return ExitCode::FAILURE;
    };
    match println!(rt; "triangle {triangle} band {band}") {
        Ok(()) => ExitCode::SUCCESS,
        Err(_) => ExitCode::FAILURE,
    }
}
