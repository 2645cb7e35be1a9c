//! The lifetime formulas of a stencil with three dimensions that reads a star of 13 points, under
//! a mapping with time t, processors i, j and k, and two memory cells in time.

ghost use Rattle.std.specs.Prelude.{IfOk};
ghost use Rattle.refute_speed.specs.Over.{IsTenWide};

use crate::affine::{Affine, Instance, params, reader, store};
use crate::members::Members;
use formula_refute::{Formula, RefuteFault};
use std::alloc::Global;

/// The points of the star, as offsets of i, j and k.
pub const STAR: [[i128; 3]; 13] = [
    [0, 0, 0],
    [-1, 0, 0],
    [1, 0, 0],
    [-2, 0, 0],
    [2, 0, 0],
    [0, -1, 0],
    [0, 1, 0],
    [0, -2, 0],
    [0, 2, 0],
    [0, 0, -1],
    [0, 0, 1],
    [0, 0, -2],
    [0, 0, 2],
];

/// Between the bounds, both included.
fn push_between(
    alloc: Global,
    members: &mut Members,
    low: &Affine,
    form: &Affine,
    high: &Affine,
) -> Result<(), RefuteFault> {
    members.push_row(alloc, &form.minus(low))?;
    members.push_row(alloc, &high.minus(form))
}

/// Where the reader reads, and the domain of the storing instance.
fn push_context(alloc: Global, members: &mut Members) -> Result<(), RefuteFault> {
    let (times, size) = params();
    let none = Affine::number(0);
    members.push_row(alloc, &times.plus(-1))?;
    members.push_row(alloc, &size.plus(-5))?;
    let [time, i, j, k] = reader();
    push_between(alloc, members, &Affine::number(1), &time, &times)?;
    for form in [i, j, k] {
        push_between(alloc, members, &Affine::number(2), &form, &size.plus(-3))?;
    }
    let [time, i, j, k] = store();
    push_between(alloc, members, &none, &time, &times)?;
    for form in [i, j, k] {
        push_between(alloc, members, &none, &form, &size.plus(-1))?;
    }
    Ok(())
}

/// Equal forms.
fn push_equal(
    alloc: Global,
    members: &mut Members,
    a: &Affine,
    b: &Affine,
) -> Result<(), RefuteFault> {
    members.push_row(alloc, &a.minus(b))?;
    members.push_row(alloc, &b.minus(a))
}

/// The cells are one: equal times, or times at least 2 apart; equal i, j and k.
fn same(alloc: Global, u: &Instance, v: &Instance) -> Result<Formula, RefuteFault>
    ensures { IfOk result IsTenWide }
{
    let mut equal = Members::new(alloc);
    push_equal(alloc, &mut equal, &u[0], &v[0])?;
    let mut times = Members::new(alloc);
    times.push(equal.all())?;
    times.push_row(alloc, &u[0].minus(&v[0]).plus(-2))?;
    times.push_row(alloc, &v[0].minus(&u[0]).plus(-2))?;
    let mut members = Members::new(alloc);
    members.push(times.any())?;
    for (a, b) in [(&u[1], &v[1]), (&u[2], &v[2]), (&u[3], &v[3])] {
        push_equal(alloc, &mut members, a, b)?;
    }
    Ok(members.all())
}

/// The forms differ.
fn push_apart(
    alloc: Global,
    members: &mut Members,
    a: &Affine,
    b: &Affine,
) -> Result<(), RefuteFault> {
    members.push_row(alloc, &a.minus(b).plus(-1))?;
    members.push_row(alloc, &b.minus(a).plus(-1))
}

fn other(alloc: Global, u: &Instance, v: &Instance) -> Result<Formula, RefuteFault>
    ensures { IfOk result IsTenWide }
{
    let mut members = Members::new(alloc);
    for (a, b) in [
        (&u[0], &v[0]),
        (&u[1], &v[1]),
        (&u[2], &v[2]),
        (&u[3], &v[3]),
    ] {
        push_apart(alloc, &mut members, a, b)?;
    }
    Ok(members.any())
}

/// At equal times the first is not before the second: another processor, or no smaller order.
fn beside(alloc: Global, u: &Instance, v: &Instance) -> Result<Formula, RefuteFault>
    ensures { IfOk result IsTenWide }
{
    let mut members = Members::new(alloc);
    for (a, b) in [(&u[1], &v[1]), (&u[2], &v[2]), (&u[3], &v[3])] {
        push_apart(alloc, &mut members, b, a)?;
    }
    members.push_row(alloc, &Affine::number(-1))?;
    let mut equal = Members::new(alloc);
    push_equal(alloc, &mut equal, &Affine::number(0), &Affine::number(0))?;
    members.push(equal.all())?;
    Ok(members.any())
}

fn not_before(alloc: Global, u: &Instance, v: &Instance) -> Result<Formula, RefuteFault>
    ensures { IfOk result IsTenWide }
{
    let mut at_once = Members::new(alloc);
    push_equal(alloc, &mut at_once, &u[0], &v[0])?;
    at_once.push(beside(alloc, u, v)?)?;
    let mut members = Members::new(alloc);
    members.push_row(alloc, &u[0].minus(&v[0]).plus(-1))?;
    members.push(at_once.all())?;
    Ok(members.any())
}

/// A store falls between the store that a read at this offset finds and the read.
pub fn lifetime(alloc: Global, offset: &[i128; 3]) -> Result<Formula, RefuteFault>
    ensures { IfOk result IsTenWide }
{
    let reader = reader();
    let store = store();
    let [time, i, j, k] = reader;
    let found = [
        time.plus(-1),
        i.plus(offset[0]),
        j.plus(offset[1]),
        k.plus(offset[2]),
    ];
    let mut members = Members::new(alloc);
    push_context(alloc, &mut members)?;
    members.push(same(alloc, &store, &found)?)?;
    members.push(other(alloc, &store, &found)?)?;
    members.push(not_before(alloc, &store, &found)?)?;
    members.push(other(alloc, &store, &reader)?)?;
    members.push(not_before(alloc, &reader, &store)?)?;
    Ok(members.all())
}
