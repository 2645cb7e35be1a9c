//! Systems over three columns with the derivation or the point that they are owed.

use crate::elimination::stored;
use crate::{Fault, Table};
use az_lin::Step;
use farkas_find::{Decision, FindFault, decide};
use std::alloc::Global;

/// What `decide` should answer.
#[derive(Clone, Copy)]
enum Verdict<'a> {
    Refuted(&'a [Step]),
    /// The numbers, and their denominator.
    Point([i128; 3], i128),
    Overflow(u32),
}

const fn step(a: i128, i: u32, b: i128, j: u32, g: i128) -> Step {
    Step { a, i, b, j, g }
}

fn is_verdict(answer: &Result<Decision, FindFault>, wanted: &Verdict<'_>) -> bool {
    match (answer, wanted) {
        (Ok(Decision::Refuted(derivation)), Verdict::Refuted(steps)) => {
            derivation.steps.as_slice() == *steps
        }
        (Ok(Decision::Point(point)), Verdict::Point(nums, den)) => {
            point.nums.as_slice() == &nums[..] && point.den == *den
        }
        (Err(FindFault::Overflow(stage)), Verdict::Overflow(wanted)) => stage == wanted,
        _ => false,
    }
}

fn decides(alloc: Global, table: Table<'_>, wanted: Verdict<'_>) -> Result<bool, Fault> {
    let system = stored(alloc, table)?;
    Ok(is_verdict(&decide(alloc, &system), &wanted))
}

#[test]
fn refutes_by_the_stated_derivation(rt: HostRuntime) -> Result<(), Fault> {
    let alloc = rt.alloc();
    let sum = [step(1, 0, 1, 1, 1)];
    let half = [
        step(1, 0, 0, 0, 2),
        step(1, 1, 0, 1, 2),
        step(1, 2, 1, 3, 1),
    ];
    let third = [
        step(1, 0, 0, 0, 3),
        step(1, 1, 0, 1, 2),
        step(1, 2, 1, 3, 1),
    ];
    let circle = [step(1, 2, 1, 0, 1), step(1, 3, 1, 1, 1)];
    let corner = [
        step(1, 0, 1, 3, 1),
        step(1, 1, 1, 4, 1),
        step(1, 2, 1, 5, 1),
    ];
    let sixth = [
        step(1, 2, 0, 2, 6),
        step(1, 0, 1, 1, 6),
        step(1, 4, 1, 3, 1),
    ];
    let fifth = [
        step(1, 2, 0, 2, 3),
        step(3, 3, 1, 1, 5),
        step(1, 4, 1, 5, 1),
    ];
    for (table, steps) in [
        (&[[1, 0, 0, -3], [-1, 0, 0, 2]][..], &sum[..]),
        (&[[2, 0, 0, -1], [-2, 0, 0, 1]], &half),
        (&[[3, 0, 0, -1], [-2, 0, 0, 1]], &third),
        // A given row that refutes the system, and the first of two.
        (&[[1, 1, 1, 0], [0, 0, 0, -1]], &[step(1, 1, 0, 1, 1)]),
        (
            &[[1, 0, 0, 0], [0, 0, 0, -5], [0, 0, 0, -1]],
            &[step(1, 1, 0, 1, 1)],
        ),
        (&[[-1, 1, 0, 0], [0, -1, 1, 0], [1, 0, -1, -1]], &circle),
        (
            &[[1, 0, 0, -1], [0, 1, 0, -1], [0, 0, 1, -1], [-1, -1, -1, 2]],
            &corner,
        ),
        // Rounded constants below 0.
        (&[[2, 3, 0, -1], [-2, 3, 0, -1], [0, -6, 0, 1]], &sixth),
        (
            &[[3, 2, 0, -1], [-3, -2, 0, 2], [0, 3, 0, -1], [1, -1, 0, 0]],
            &fifth,
        ),
        // The roundings of the first and the last row are not needed.
        (
            &[[2, 0, 0, -1], [0, 1, 0, -3], [0, -1, 0, 2], [0, 0, 2, -1]],
            &[step(1, 1, 1, 2, 1)],
        ),
    ] {
        assert!(rt; decides(alloc, table, Verdict::Refuted(steps))?);
    }
    Ok(())
}

#[test]
fn finds_the_stated_point(rt: HostRuntime) -> Result<(), Fault> {
    let alloc = rt.alloc();
    for (table, nums, den) in [
        (&[][..], [0, 0, 0], 1),
        (&[[0, 0, 0, 0]], [0, 0, 0], 1),
        (&[[1, 0, 0, -3], [-1, 0, 0, 5]], [3, 0, 0], 1),
        (&[[0, -1, 0, 7]], [0, 7, 0], 1),
        (&[[1, -1, 0, 0], [0, 1, 0, -3], [-1, 0, 0, 5]], [3, 3, 0], 1),
        (
            &[[2, -1, 0, 0], [-2, 1, 0, 0], [0, 1, 0, -1], [0, -1, 0, 1]],
            [1, 2, 0],
            2,
        ),
        // The greatest of the lower bounds 1 and 7/2, rounded, and the least of the upper ones.
        (
            &[[1, 0, 0, -1], [2, 1, 0, -7], [0, 1, 0, 0], [0, -1, 0, 0]],
            [4, 0, 0],
            1,
        ),
        (
            &[[-1, 0, 0, 9], [-2, 0, 1, 7], [0, 0, 1, 0], [0, 0, -1, 0]],
            [3, 0, 0],
            1,
        ),
        (
            &[[2, -3, 0, 0], [4, -6, 0, 1], [0, 1, 0, -1], [0, -1, 0, 5]],
            [3, 2, 0],
            2,
        ),
        (
            &[[1, 0, 0, 0], [0, 1, 0, 0], [0, 0, 1, 0], [-1, -1, -1, 2]],
            [0, 0, 0],
            1,
        ),
        (
            &[[2, -1, 0, 0], [0, 3, -1, 0], [0, 0, 5, -1], [-1, 0, 0, 9]],
            [1, 2, 6],
            6,
        ),
    ] {
        assert!(rt; decides(alloc, table, Verdict::Point(nums, den))?);
    }
    Ok(())
}

const GREAT: i128 = 1 << 59;

#[test]
fn names_the_stage_that_leaves_the_range(rt: HostRuntime) -> Result<(), Fault> {
    let alloc = rt.alloc();
    let less = GREAT - 1;
    let plane = [
        [GREAT, 1, 0, 1],
        [-less, GREAT, 0, 1],
        [-less, -GREAT, 0, 1],
    ];
    assert!(rt; decides(alloc, &plane, Verdict::Point([-1, 0, 0], GREAT))?);
    let space = [
        [GREAT, 1, 1, 1],
        [-less, GREAT, -1, 1],
        [-less, -GREAT, 1, 1],
    ];
    assert!(rt; decides(alloc, &space, Verdict::Overflow(1))?);
    Ok(())
}
