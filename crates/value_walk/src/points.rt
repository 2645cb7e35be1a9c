//! The points of all outputs and locals.

ghost use Rattle.std.specs.Prelude.{◌≡◌, ◌≤◌, ◌<◌, ◌^◌, ℕ, length, All, IfOk, IfErr};
ghost use Rattle.az_lin.specs.Affine.{IsEntry, Union};
ghost use Rattle.az_lin.specs.Substitution.{Point};
ghost use Rattle.loop_scan.specs.Answers.{IsUnrefused};
ghost use Rattle.value_walk.specs.Boxes.{UnlessMemory};
ghost use Rattle.value_walk.specs.Inner.Slots.{ArePointsOf, IsOwnRefused, IsOwnRefusedIn, IsOwnUnrefused, IsUnrefusedAt};
ghost use Rattle.value_walk.specs.Meanings.{IsOwnBox, IsRefused};
ghost use Rattle.value_walk.specs.Points.{ArePoints};

use crate::boxes::members;
use az_ast::{Program, Role, Variable};
use az_lin::List;
use loop_scan::ScanFault;
use sqlite_items::Items;
use std::alloc::Global;

/// The points of one variable; none of an input.
fn own_points(
    alloc: Global,
    variable: &Variable,
    params: &[i128],
) -> Result<List<List<i128>>, ScanFault>
    requires columns { length params.now ≤ variable.now.domain.width }
    requires narrow { variable.now.domain.width ≤ 64 }
    requires entries { All IsEntry params.now }
    ensures ok { IfOk result (ArePointsOf variable.now params.now) }
    ensures only { IfOk result (λ _. IsOwnUnrefused variable.now params.now) }
    ensures cause { IfErr result (UnlessMemory (λ fault. IsOwnRefused variable.now params.now fault)) }
{
    match variable.role {
        Role::Input => Ok(List::new(alloc)),
        Role::Output => members(alloc, &variable.domain, params),
        Role::Local => members(alloc, &variable.domain, params),
    }
}

/// The points of each variable, in order.
fn listed(
    alloc: Global,
    program: &Program,
    params: &[i128],
) -> Result<Items<List<List<i128>>>, ScanFault>
    requires count { length params.now ≡ length program.now.params }
    requires entries { All IsEntry params.now }
    ensures ok { IfOk result (ArePoints program.now params.now) }
    ensures count { IfOk result (λ points. length points ≡ length program.now.variables) }
    ensures few { IfOk result (λ points. length points < 2 ^ 32) }
    ensures only { IfOk result (λ _. (x : ℕ) → x < length program.now.variables → IsUnrefusedAt program.now params.now x) }
    ensures cause { IfErr result (UnlessMemory (IsOwnRefusedIn program.now params.now)) }
{
    let variables = program.variables();
    let mut points = Items::new(alloc);
    'variables: for variable in variables {
        points.push(own_points(alloc, variable, params)?)?;
    }
    Ok(points)
}

/// The points of each variable, in order: those of its domain, and none of an input.
pub fn points_of(
    alloc: Global,
    program: &Program,
    params: &[i128],
) -> Result<Items<List<List<i128>>>, ScanFault>
    requires count { length params.now ≡ length program.now.params }
    requires entries { All IsEntry params.now }
    ensures ok { IfOk result (ArePoints program.now params.now) }
    ensures count { IfOk result (λ points. length points ≡ length program.now.variables) }
    ensures few { IfOk result (λ points. length points < 2 ^ 32) }
    ensures only { IfOk result (λ _. (domain : Union) (outer : Point) → IsOwnBox program.now params.now domain outer → IsUnrefused domain outer) }
    ensures cause { IfErr result (UnlessMemory (IsRefused program.now params.now)) }
{
    match listed(alloc, program, params) {
        Ok(points) => Ok(points),
        Err(fault) => Err(fault),
    }
}
