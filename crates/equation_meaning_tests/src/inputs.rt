//! Tables for the inputs of a program.

ghost use Rattle.std.specs.Prelude.{◌≡◌, ◌≤◌, ◌<◌, length, map, All, IfOk};
ghost use Rattle.az_lin.specs.Affine.{IsEntry};
ghost use Rattle.equation_meaning_tests.specs.Inputs.{IsTableOver};
ghost use Rattle.value_walk.specs.Meanings.{HaveInputs};

use az_ast::{Inputs, Program, Role, Table, Variable};
use az_lin::{List, TryCopy};
use loop_scan::ScanFault;
use std::alloc::Global;
use value_walk::members;

/// The points in order, with the numbers from a place on, and 0 beyond these.
fn rows_of(
    alloc: Global,
    points: &[List<i128>],
    numbers: &[i64],
    from: usize,
) -> Result<List<(List<i128>, i64)>, ScanFault>
    ensures { IfOk result (λ rows. map (λ row. row.0) rows ≡ points.now) }
{
    let mut rows = Vec::with_capacity(alloc, points.len())?;
    let mut place = from;
    'points: for point in points {
        let number = numbers.get(place).copied().unwrap_or(0);
        let Ok(copied) = point.copy(alloc) else {
            return Err(ScanFault::Memory);
        };
        rows.push((copied, number))?;
        place = place.saturating_add(1);
    }
    Ok(List::from_vec(rows))
}

/// The table of an input over its domain.
fn table_of(
    alloc: Global,
    variable: &Variable,
    params: &[i128],
    numbers: &[i64],
    from: usize,
) -> Result<Table, ScanFault>
    requires columns { length params.now ≤ variable.now.domain.width }
    requires narrow { variable.now.domain.width ≤ 64 }
    requires entries { All IsEntry params.now }
    ensures { IfOk result (IsTableOver variable.now params.now) }
{
    let points = members(alloc, &variable.domain, params)?;
    let rows = rows_of(alloc, points.as_slice(), numbers, from)?;
    Ok(Table::new(rows))
}

/// A table for each input over its domain: the numbers belong to the points of the inputs, one after
/// another in order of declaration, and 0 to the points that are left.
pub(crate) fn inputs_of(
    alloc: Global,
    program: &Program,
    params: &[i128],
    numbers: &[i64],
) -> Result<Inputs, ScanFault>
    requires count { length params.now ≡ length program.now.params }
    requires entries { All IsEntry params.now }
    ensures { IfOk result (λ inputs. HaveInputs program.now inputs params.now) }
{
    let variables = program.variables();
    let mut inputs = Inputs::new(alloc);
    let mut from: usize = 0;
    'variables: for x in 0..variables.len() {
        let variable = &variables[x];
        if variable.role != Role::Input {
            continue;
        }
        let table = table_of(alloc, variable, params, numbers, from)?;
        from = from.saturating_add(table.rows().len());
        let Ok(()) = inputs.set(x as u32, table) else {
            return Err(ScanFault::Memory);
        };
    }
    Ok(inputs)
}
