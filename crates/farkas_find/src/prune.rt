//! The steps on which a row depends, out of all that were made.

ghost use Rattle.std.specs.Prelude.{◌≡◌, ◌<◌, ◌≤◌, ◌+◌, ◌-◌, ◌^◌, ◌||◌, ℕ, length, nat_eq, nat_lt, cond, slice_index_or, false, IfOk, All, List};
ghost use Rattle.az_lin.specs.Affine.{Affine};
ghost use Rattle.az_lin.specs.Combination.{HasWideEntries};
ghost use Rattle.az_lin.specs.Derivation.{IsStep, IsContradiction, IsDerivation, AllSteps, rows_after, row_at};
ghost use Rattle.farkas_find.specs.Needed.{itself, needed, needed_steps, derivation_of, EachNamesBefore, NamesBefore};

use az_lin::{Derivation, List as StepList, Step};
use std::alloc::{AllocError, Global};

/// Marks the step that makes this row, if it isn't a given one.
fn mark(marks: &mut Vec<bool>, given: u32, number: u32)
    requires { number < given + length marks.now.items }
    ensures length { length marks.new.items ≡ length marks.old.items }
    ensures value { (k : ℕ) → k < length marks.old.items
        → slice_index_or marks.new.items k false ≡ (nat_eq number (given + k) || slice_index_or marks.old.items k false) }
{
    if number >= given {
        marks[(number - given) as usize] = true;
    }
}

/// For each step whether it is needed for the row `target`. Each is looked at once, from the last
/// one back.
fn needed(alloc: Global, target: u32, given: u32, steps: &[Step]) -> Result<Vec<bool>, AllocError>
    requires target { target < given + length steps.now }
    requires few { given + length steps.now < 2 ^ 32 }
    requires order { EachNamesBefore given steps.now }
    ensures { IfOk result (λ got. got.items ≡ needed target given steps.now) }
{
    let mut marks = vec![in alloc; false; steps.len()]?;
    mark(&mut marks, given, target);
    let mut place = steps.len();
    'steps: while place > 0 {
        place -= 1;
        if marks[place] {
            mark(&mut marks, given, steps[place].i);
            mark(&mut marks, given, steps[place].j);
        }
    }
    Ok(marks)
}

/// The number that a row takes, where the rows that steps made take these.
fn new_number(numbers: &[u32], given: u32, number: u32) -> u32
    requires { number < given + length numbers.now }
    ensures { result ≡ cond (nat_lt number given) number (slice_index_or numbers.now (number - given) 0) }
{
    if number < given {
        return number;
    }
    numbers[(number - given) as usize]
}

/// The step, naming rows by their new numbers.
fn renumbered(numbers: &[u32], given: u32, step: &Step) -> Step
    requires { NamesBefore (given + length numbers.now) step.now }
    ensures { result ≡ record step.now {
      i = cond (nat_lt step.now.i given) step.now.i (slice_index_or numbers.now (step.now.i - given) 0);
      j = cond (nat_lt step.now.j given) step.now.j (slice_index_or numbers.now (step.now.j - given) 0);
    } }
{
    Step {
        a: step.a,
        i: new_number(numbers, given, step.i),
        b: step.b,
        j: new_number(numbers, given, step.j),
        g: step.g,
    }
}

/// The flagged steps, renumbered.
fn needed_steps(
    alloc: Global,
    given: u32,
    flags: &[bool],
    steps: &[Step],
) -> Result<Vec<Step>, AllocError>
    requires few { given + length steps.now < 2 ^ 32 }
    requires flags { length flags.now ≡ length steps.now }
    requires order { EachNamesBefore given steps.now }
    ensures { IfOk result (λ got. got.items ≡ needed_steps given flags.now steps.now) }
{
    let mut kept = Vec::new(alloc);
    let mut numbers = Vec::with_capacity(alloc, steps.len())?;
    let mut next = given;
    'steps: for place in 0..steps.len() {
        numbers.push(next)?;
        if flags[place] {
            kept.push(renumbered(numbers.as_slice(), given, &steps[place]))?;
            next += 1;
        }
    }
    Ok(kept)
}

/// The steps by which the row `target` follows from the given ones.
#[tactic(auto, unfolding(crate::specs::Needed::derivation_of))]
fn steps_to(alloc: Global, target: u32, given: u32, steps: &[Step]) -> Result<Vec<Step>, AllocError>
    requires target { target < given + length steps.now }
    requires few { given + length steps.now < 2 ^ 32 }
    requires order { EachNamesBefore given steps.now }
    ensures { IfOk result (λ got. got.items ≡ derivation_of target given steps.now) }
{
    if target < given {
        return Ok(Vec::from_slice(alloc, &[itself(target)])?);
    }
    let flags = needed(alloc, target, given, steps)?;
    Ok(needed_steps(alloc, given, flags.as_slice(), steps)?)
}

/// The derivation of the row `target`, which refutes the given rows.
pub(crate) fn derivation_of(
    alloc: Global,
    target: u32,
    given: u32,
    steps: &[Step],
) -> Result<Derivation, AllocError>
    requires target { target < given + length steps.now }
    requires few { given + length steps.now < 2 ^ 32 }
    requires order { EachNamesBefore given steps.now }
    ensures value { IfOk result (λ got. got.steps ≡ derivation_of target given steps.now) }
    ensures valid { IfOk result (λ got. (rows : List Affine) → length rows ≡ given → All HasWideEntries rows → AllSteps IsStep rows steps.now
        → IsContradiction (row_at (rows_after rows steps.now) target) → IsDerivation IsStep rows got.steps) }
{
    let steps = steps_to(alloc, target, given, steps)?;
    Ok(Derivation {
        steps: StepList::from_vec(steps),
    })
}

/// The step that makes a row again.
fn itself(number: u32) -> Step
    ensures { result ≡ itself number }
{
    Step {
        a: 1,
        i: number,
        b: 0,
        j: number,
        g: 1,
    }
}
