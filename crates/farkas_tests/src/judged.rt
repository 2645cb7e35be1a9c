//! Derivations and points with the answers that they are owed.

use az_lin::{Conj, Derivation, LinFault, List, RatPoint, Row, Step};
use farkas_check::{CheckFault, check, check_exact, satisfies};
use std::alloc::Global;

/// The system of two rows over one column, each a coefficient and a constant.
fn system(alloc: Global, first: (i128, i128), second: (i128, i128)) -> Result<Conj, LinFault> {
    let mut rows = List::new(alloc);
    rows.push(Row::new(alloc, &[first.0], first.1)?)?;
    rows.push(Row::new(alloc, &[second.0], second.1)?)?;
    Ok(Conj::new(1, rows))
}

fn derivation(alloc: Global, steps: &[Step]) -> Result<Derivation, LinFault> {
    Ok(Derivation {
        steps: List::from_vec(Vec::from_slice(alloc, steps)?),
    })
}

const fn step(a: i128, i: u32, b: i128, j: u32, g: i128) -> Step {
    Step { a, i, b, j, g }
}

const SUM: Step = Step {
    a: 1,
    i: 0,
    b: 1,
    j: 1,
    g: 1,
};

const GREAT: i128 = 1 << 126;

/// Whether both judges answer as they should: `None` for a derivation that is accepted, or the
/// number of the step that is bad.
fn is_judged(
    alloc: Global,
    system: &Conj,
    steps: &[Step],
    bad: Option<u64>,
    bad_exactly: Option<u64>,
) -> Result<bool, LinFault> {
    let derivation = derivation(alloc, steps)?;
    let rounded = check(alloc, system, &derivation) == verdict(bad);
    let exact = check_exact(alloc, system, &derivation) == verdict(bad_exactly);
    Ok(rounded && exact)
}

fn verdict(bad: Option<u64>) -> Result<(), CheckFault> {
    match bad {
        Some(number) => Err(CheckFault::BadStep { number }),
        None => Ok(()),
    }
}

#[test]
fn accepts_contradictions(rt: HostRuntime) -> Result<(), LinFault> {
    let alloc = rt.alloc();
    let apart = system(alloc, (1, -3), (-1, 2))?;
    assert!(rt; is_judged(alloc, &apart, &[SUM], None, None)?);
    let touching = system(alloc, (1, -3), (-1, 3))?;
    assert!(rt; is_judged(alloc, &touching, &[SUM], Some(1), Some(1))?);
    let half = system(alloc, (2, -1), (-2, 1))?;
    let rounded = [
        step(1, 0, 0, 0, 2),
        step(1, 1, 0, 1, 2),
        step(1, 2, 1, 3, 1),
    ];
    assert!(rt; is_judged(alloc, &half, &rounded, None, Some(0))?);
    Ok(())
}

#[test]
fn refuses_forged_steps(rt: HostRuntime) -> Result<(), LinFault> {
    let alloc = rt.alloc();
    let half = system(alloc, (2, -1), (-2, 1))?;
    for forged in [
        step(-1, 0, 1, 1, 1),
        step(1, 0, 1, 1, 0),
        step(1, 0, 1, 9, 1),
        step(1, 0, 0, 0, 3),
        step(GREAT, 0, 0, 0, 1),
        step(GREAT, 1, 0, 1, 1),
    ] {
        assert!(rt; is_judged(alloc, &half, &[forged], Some(0), Some(0))?);
        assert!(rt; is_judged(alloc, &half, &[SUM, forged], Some(1), Some(1))?);
    }
    assert!(rt; is_judged(alloc, &half, &[step(1, 0, 1, 2, 1)], Some(0), Some(0))?);
    assert!(rt; is_judged(alloc, &half, &[], Some(0), Some(0))?);
    Ok(())
}

/// The point of one coordinate.
fn point(alloc: Global, num: i128, den: i128) -> Result<RatPoint, LinFault> {
    Ok(RatPoint {
        nums: List::from_vec(Vec::from_slice(alloc, &[num])?),
        den,
    })
}

#[test]
fn judges_points(rt: HostRuntime) -> Result<(), LinFault> {
    let alloc = rt.alloc();
    let half = system(alloc, (2, -1), (-2, 1))?;
    for (num, den, met) in [
        (1, 2, true),
        (1, 3, false),
        (-1, -2, false),
        (0, 0, false),
        (GREAT, 2, false),
    ] {
        assert_eq!(rt;
            satisfies(&half, &point(alloc, num, den)?),
            met,
            "{num} over {den}"
        );
    }
    Ok(())
}
