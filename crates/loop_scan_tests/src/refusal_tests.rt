//! Each domain of the table of refusals, scanned and listed.

ghost use Rattle.std.specs.Prelude.{◌≡◌, length};

use crate::refusals::{Answer, REFUSALS, Refusal};
use crate::system::{domain, may_be_params};
use az_lin::{Domain, Limit};
use loop_scan::{ScanFault, Scanner, box_points};
use std::alloc::Global;
use std::test::Fail;

fn answer_of(fault: &ScanFault) -> Answer {
    match fault {
        ScanFault::Overflow => Answer::Overflow,
        ScanFault::Entry => Answer::Entry,
        ScanFault::Limit(Limit::Rows) => Answer::Rows,
        ScanFault::Limit(Limit::Coordinate) => Answer::Coordinate,
        ScanFault::Limit(Limit::BoxPoints) => Answer::BoxPoints,
        ScanFault::Limit(_) | ScanFault::Memory => Answer::Other,
    }
}

fn count(scanner: &mut Scanner, out: &mut [i128]) -> usize
    requires { length out.old ≡ scanner.old.width }
{
    let mut points: usize = 0;
    'points: while scanner.next_point(out) {
        points = points.saturating_add(1);
    }
    points
}

fn scanned(alloc: Global, case: &Refusal, domain: &Domain) -> Result<usize, ScanFault> {
    if !may_be_params(case.params, domain.width()) {
        return Err(ScanFault::Memory);
    }
    let mut scanner = Scanner::new(alloc, domain, case.params)?;
    let mut out = vec![in alloc; 0; scanner.width()]?;
    Ok(count(&mut scanner, out.as_mut_slice()))
}

fn listed(alloc: Global, case: &Refusal, domain: &Domain) -> Result<usize, ScanFault> {
    if !may_be_params(case.params, domain.width()) {
        return Err(ScanFault::Memory);
    }
    Ok(box_points(alloc, domain, case.params)?.len())
}

fn answer(counted: Result<usize, ScanFault>) -> Answer {
    match counted {
        Ok(points) => Answer::Points(points),
        Err(fault) => answer_of(&fault),
    }
}

/// The name of the first case that isn't answered as the table says, or none.
fn first_wrong<'a>(alloc: Global, cases: &'a [Refusal]) -> Result<Option<&'a str>, ScanFault> {
    for case in cases {
        let Ok(domain) = domain(alloc, case.disjuncts, case.width) else {
            return Ok(Some(case.name));
        };
        if answer(scanned(alloc, case, &domain)) != case.scanned
            || answer(listed(alloc, case, &domain)) != case.listed
        {
            return Ok(Some(case.name));
        }
    }
    Ok(None)
}

#[test]
fn refusals_come_in_their_order(rt: HostRuntime) -> Result<(), Fail> {
    assert_eq!(rt; first_wrong(rt.alloc(), &REFUSALS)?, None);
    Ok(())
}
