//! Each domain of the table, scanned and listed.

ghost use Rattle.std.specs.Prelude.{◌≡◌, length};

use crate::case::Case;
use crate::constant_cases::CONSTANT;
use crate::plain_cases::PLAIN;
use crate::rounding_cases::ROUNDED;
use crate::system::{domain, may_be_params};
use crate::union_cases::UNIONS;
use loop_scan::{ScanFault, Scanner, box_points};
use std::alloc::Global;
use std::test::Fail;

/// Whether these points come in order, and then none, twice.
fn gives(scanner: &mut Scanner, out: &mut [i128], points: &[&[i128]]) -> bool
    requires { length out.old ≡ scanner.old.width }
{
    'points: for point in points {
        if !scanner.next_point(out) || &*out != *point {
            return false;
        }
    }
    !scanner.next_point(out) && !scanner.next_point(out)
}

fn is_scanned(alloc: Global, case: &Case) -> Result<bool, ScanFault> {
    let Ok(domain) = domain(alloc, case.disjuncts, case.width) else {
        return Ok(false);
    };
    if !may_be_params(case.params, domain.width()) {
        return Ok(false);
    }
    let mut scanner = Scanner::new(alloc, &domain, case.params)?;
    let mut out = vec![in alloc; 0; scanner.width()]?;
    Ok(gives(&mut scanner, out.as_mut_slice(), case.members))
}

fn is_listed(alloc: Global, case: &Case) -> Result<bool, ScanFault> {
    let Ok(domain) = domain(alloc, case.disjuncts, case.width) else {
        return Ok(false);
    };
    if !may_be_params(case.params, domain.width()) {
        return Ok(false);
    }
    let points = box_points(alloc, &domain, case.params)?;
    let same = points
        .as_slice()
        .iter()
        .zip(case.members)
        .all(|(point, member)| point.as_slice() == *member);
    Ok(points.len() == case.members.len() && same)
}

/// The name of the first case that isn't scanned and listed as the table says, or none.
fn first_wrong<'a>(alloc: Global, cases: &'a [Case]) -> Result<Option<&'a str>, ScanFault> {
    for case in cases {
        if !is_scanned(alloc, case)? || !is_listed(alloc, case)? {
            return Ok(Some(case.name));
        }
    }
    Ok(None)
}

#[test]
fn members_of_one_disjunct(rt: HostRuntime) -> Result<(), Fail> {
    assert_eq!(rt; first_wrong(rt.alloc(), &PLAIN)?, None);
    Ok(())
}

#[test]
fn members_between_rounded_bounds(rt: HostRuntime) -> Result<(), Fail> {
    assert_eq!(rt; first_wrong(rt.alloc(), &ROUNDED)?, None);
    Ok(())
}

#[test]
fn members_under_constant_rows(rt: HostRuntime) -> Result<(), Fail> {
    assert_eq!(rt; first_wrong(rt.alloc(), &CONSTANT)?, None);
    Ok(())
}

#[test]
fn members_of_several_disjuncts(rt: HostRuntime) -> Result<(), Fail> {
    assert_eq!(rt; first_wrong(rt.alloc(), &UNIONS)?, None);
    Ok(())
}
