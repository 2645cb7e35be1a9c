//! The evaluation of a program.

ghost use Rattle.std.specs.Prelude.{◌≡◌, length, All};
ghost use Rattle.az_lin.specs.Affine.{IsEntry, HoldsSome};
ghost use Rattle.value_walk.specs.Meanings.{HaveInputs};
ghost use Rattle.equation_meaning.specs.Evaluation.{EvaluationAnswers};

use crate::body_count::CountFault;
use crate::point_count::point_count;
use az_ast::{Checked, Inputs, Values};
use az_lin::Limit;
use std::alloc::Global;
use value_walk::{EvalRefusal, points_of, values};

/// The table of each output and local over its domain, by the numbers of the variables.
pub fn evaluate(
    alloc: Global,
    checked: &Checked,
    params: &[i128],
    inputs: &Inputs,
) -> Result<Values, EvalRefusal>
    requires count { length params.now ≡ length checked.now.params }
    requires range { All IsEntry params.now }
    requires inside { HoldsSome checked.now.pdom params.now }
    requires inputs { HaveInputs checked.now inputs.now params.now }
    ensures { EvaluationAnswers checked.now inputs.now params.now result }
{
    let program = checked.program();
    let points = match points_of(alloc, program, params) {
        Ok(points) => points,
        Err(fault) => return Err(EvalRefusal::of_scan(fault)),
    };
    match point_count(alloc, program, params, points.as_slice()) {
        Ok(_) => values(alloc, checked, params, inputs, points),
        Err(CountFault::Many) => Err(EvalRefusal::Limit(Limit::Points)),
        Err(CountFault::Scan(fault)) => Err(EvalRefusal::of_scan(fault)),
    }
}
