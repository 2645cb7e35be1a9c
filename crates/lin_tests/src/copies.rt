//! Copies are equal to what they were made of.

use az_lin::{Derivation, ExactRow, LinFault, List, NoInverse, RatPoint, Row, Step, TryCopy};
use std::alloc::Global;
use std::test::Fail;

const STEP: Step = Step {
    a: 2,
    i: 0,
    b: 1,
    j: 3,
    g: 5,
};

fn numbers(alloc: Global, items: &[i128]) -> Result<List<i128>, LinFault> {
    Ok(List::from_vec(Vec::from_slice(alloc, items)?))
}

fn copies_derivation(alloc: Global) -> Result<bool, LinFault> {
    let steps = List::from_vec(Vec::from_slice(alloc, &[STEP])?);
    let copied = Derivation { steps }.copy(alloc)?;
    Ok(copied.steps.as_slice() == [STEP].as_slice())
}

fn copies_point(alloc: Global) -> Result<bool, LinFault> {
    let nums = numbers(alloc, &[3, -4])?;
    let copied = RatPoint { nums, den: 7 }.copy(alloc)?;
    Ok(copied.nums.as_slice() == [3, -4].as_slice() && copied.den == 7)
}

fn copies_row(alloc: Global) -> Result<bool, LinFault> {
    let row = ExactRow::from_row(alloc, &Row::new(alloc, &[1, -2], 3)?)?;
    let copied = row.copy(alloc)?;
    Ok(copied.coefs() == [1, -2].as_slice() && copied.konst() == 3)
}

fn copies_kernel(alloc: Global) -> Result<bool, LinFault> {
    match NoInverse::Kernel(numbers(alloc, &[1, -1])?).copy(alloc)? {
        NoInverse::Kernel(vector) => Ok(vector.as_slice() == [1, -1].as_slice()),
        NoInverse::Rational { .. } => Ok(false),
    }
}

fn copies_rational(alloc: Global) -> Result<bool, LinFault> {
    let nums = numbers(alloc, &[1])?;
    match (NoInverse::Rational { nums, den: 2 }).copy(alloc)? {
        NoInverse::Kernel(_) => Ok(false),
        NoInverse::Rational { nums, den } => Ok(nums.as_slice() == [1].as_slice() && den == 2),
    }
}

#[test]
fn copies_derivations_points_and_rows(rt: HostRuntime) -> Result<(), Fail> {
    let alloc = rt.alloc();
    assert!(rt; copies_derivation(alloc)?);
    assert!(rt; copies_point(alloc)?);
    assert!(rt; copies_row(alloc)?);
    Ok(())
}

#[test]
fn copies_reasons(rt: HostRuntime) -> Result<(), Fail> {
    let alloc = rt.alloc();
    assert!(rt; copies_kernel(alloc)?);
    assert!(rt; copies_rational(alloc)?);
    Ok(())
}
