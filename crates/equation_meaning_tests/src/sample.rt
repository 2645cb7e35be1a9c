//! Evaluations at parameters that are tested first.

ghost use Rattle.std.specs.Prelude.{◌≡◌, length, All, IsTrue, ◌↔◌};
ghost use Rattle.az_lin.specs.Affine.{IsEntry, HoldsSome};

use crate::inputs::inputs_of;
use az_ast::{Checked, Program, Values};
use equation_meaning::{EvalRefusal, evaluate};
use std::alloc::Global;

const MOST_ENTRY: i128 = (1 << 60) - 1;

fn is_entry(number: i128) -> bool
    ensures { IsTrue result ↔ IsEntry number }
{
    -MOST_ENTRY <= number && number <= MOST_ENTRY
}

fn are_entries(numbers: &[i128]) -> bool
    ensures { IsTrue result ↔ All IsEntry numbers.now }
{
    numbers.iter().all(|number| is_entry(*number))
}

/// Whether these are values of the program's parameters in its parameter domain.
fn fits(program: &Program, params: &[i128]) -> bool
    ensures count { IsTrue result → length params.now ≡ length program.now.params }
    ensures range { IsTrue result → All IsEntry params.now }
    ensures inside { IsTrue result → HoldsSome program.now.pdom params.now }
{
    let pdom = program.pdom();
    if params.len() != program.params().len() {
        return false;
    }
    if params.len() != pdom.width() {
        return false;
    }
    if params.len() > 64 {
        return false;
    }
    if !are_entries(params) {
        return false;
    }
    pdom.holds_params(params)
}

/// What the evaluation answers over inputs with these numbers, if the parameters fit.
pub fn evaluated(
    alloc: Global,
    checked: &Checked,
    params: &[i128],
    numbers: &[i64],
) -> Option<Result<Values, EvalRefusal>> {
    let program = checked.program();
    if !fits(program, params) {
        return None;
    }
    match inputs_of(alloc, program, params, numbers) {
        Ok(inputs) => Some(evaluate(alloc, checked, params, &inputs)),
        Err(_) => None,
    }
}
