//! The number of points that the evaluation of a program goes through.

ghost use Rattle.std.specs.Prelude.{◌≡◌, ◌<◌, ◌≤◌, ◌^◌, length};
ghost use Rattle.az_lin.specs.Affine.{HoldsSome};
ghost use Rattle.az_ast.specs.Certified.{IsCertified};
ghost use Rattle.az_ast.specs.Shapes.{IsProgram};
ghost use Rattle.value_walk.specs.Points.{ArePoints, IsCoveredBy};
ghost use Rattle.equation_meaning.specs.Counts.{HasNumberOfPoints};
ghost use Rattle.equation_meaning.specs.Inner.Counting.{VariableAnswers, ProgramAnswers};

use crate::body_count::{CountFault, body_count};
use az_ast::Program;
use az_lin::List;
use std::alloc::Global;

/// The most points that an evaluation may go through.
const MOST_POINTS: u64 = 1 << 22;

/// What one variable counts, where that is at most `left`.
fn variable_count(
    alloc: Global,
    program: &Program,
    params: &[i128],
    x: u32,
    points: &[List<i128>],
    left: u64,
) -> Result<u64, CountFault>
    requires rules { IsProgram program.now }
    requires certified { IsCertified program.now }
    requires count { length params.now ≡ length program.now.params }
    requires inside { HoldsSome program.now.pdom params.now }
    requires within { x < length program.now.variables }
    requires covered { IsCoveredBy program.now params.now x points.now }
    requires small { left ≤ 2 ^ 22 }
    ensures { VariableAnswers program.now params.now x left result }
{
    match program.equation(x) {
        Some(equation) => body_count(alloc, &equation.body, params, points, left),
        None => Ok(0),
    }
}

/// What all variables count, where that is at most the limit.
pub(crate) fn point_count(
    alloc: Global,
    program: &Program,
    params: &[i128],
    points: &[List<List<i128>>],
) -> Result<u64, CountFault>
    requires certified { IsCertified program.now }
    requires count { length params.now ≡ length program.now.params }
    requires inside { HoldsSome program.now.pdom params.now }
    requires points { ArePoints program.now params.now points.now }
    requires each { length points.now ≡ length program.now.variables }
    requires few { length points.now < 2 ^ 32 }
    ensures answers { ProgramAnswers program.now params.now (2 ^ 22) result }
    ensures number { HasNumberOfPoints program.now params.now }
{
    let variables = program.variables();
    let mut count = 0;
    'variables: for x in 0..variables.len() {
        let own = points[x].as_slice();
        let left = MOST_POINTS - count;
        count += variable_count(alloc, program, params, x as u32, own, left)?;
    }
    Ok(count)
}
