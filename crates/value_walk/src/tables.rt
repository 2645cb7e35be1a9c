//! The tables of the values.

ghost use Rattle.std.specs.Prelude.{◌≡◌, ◌≢◌, ◌<◌, ◌^◌, ℕ, None, OnOk, length, map, All, IfOk};
ghost use Rattle.std.specs.FinMap.{get};
ghost use Rattle.az_ast.specs.Meaning.{Means};
ghost use Rattle.value_walk.specs.Inner.Slots.{AreAligned, AreSettled, IsSettledAt, states_of};
ghost use Rattle.value_walk.specs.Points.{ArePoints, IsCoveredBy};
ghost use Rattle.value_walk.specs.Meanings.{AreMeanings, HasTable};

use crate::shrinking::Shrinking;
use crate::slot::State;
use crate::stack::Stack;
use az_ast::{Inputs, Program, Role, ShapeFault, Table, Values};
use az_lin::List;
use sqlite_items::{Items, at};
use std::alloc::{AllocError, Global};

/// The rows of one variable's points and their values.
fn rows_of(
    alloc: Global,
    program: &Program,
    params: &[i128],
    inputs: &Inputs,
    x: u32,
    points: List<List<i128>>,
    states: &[State],
) -> Result<List<(List<i128>, i64)>, AllocError>
    requires length { length points ≡ length states.now }
    requires settled { (place : ℕ) → place < length points → IsSettledAt (Means program.now inputs.now params.now x) points states.now place }
    ensures points { IfOk result (λ rows. map (λ row. row.0) rows ≡ points) }
    ensures values { IfOk result (λ rows. All (λ row. Means program.now inputs.now params.now x row.0 row.1) rows) }
{
    let mut points = Shrinking::of(points);
    let count = points.len();
    let mut rows = Stack::with_capacity(alloc, count)?;
    while let Some(point) = points.pop() {
        match states[points.len()] {
            State::Known(value) => rows.push((point, value))?,
            State::Unknown => unreachable!(),
            State::Open => unreachable!(),
        }
    }
    Ok(rows.into_list())
}

/// Puts the table of one variable among the others, if it is an output or local.
fn put(
    alloc: Global,
    program: &Program,
    params: &[i128],
    inputs: &Inputs,
    values: &mut Values,
    x: u32,
    points: List<List<i128>>,
    states: &[State],
) -> Result<(), ShapeFault>
    requires fresh { get values.old x ≡ None }
    requires covered { IsCoveredBy program.now params.now x points }
    requires length { length points ≡ length states.now }
    requires settled { (place : ℕ) → place < length points → IsSettledAt (Means program.now inputs.now params.now x) points states.now place }
    ensures table { OnOk result (HasTable program.now inputs.now params.now values.new x) }
    ensures others { OnOk result ((y : ℕ) → y ≢ x → get values.new y ≡ get values.old y) }
{
    let Some(variable) = at(program.variables(), x as usize) else {
        return Ok(());
    };
    match variable.role {
        Role::Input => Ok(()),
        Role::Output => {
            let rows = rows_of(alloc, program, params, inputs, x, points, states)?;
            values.set(x, Table::new(rows))
        }
        Role::Local => {
            let rows = rows_of(alloc, program, params, inputs, x, points, states)?;
            values.set(x, Table::new(rows))
        }
    }
}

fn states_of(states: &[Items<State>], x: usize) -> &[State]
    ensures { result.now ≡ states_of states.now x }
{
    match states.get(x) {
        Some(list) => list.as_slice(),
        None => &[],
    }
}

pub(crate) fn tables(
    alloc: Global,
    program: &Program,
    params: &[i128],
    inputs: &Inputs,
    points: Items<List<List<i128>>>,
    states: &[Items<State>],
) -> Result<Values, ShapeFault>
    requires points { ArePoints program.now params.now points }
    requires count { length points ≡ length program.now.variables }
    requires few { length points < 2 ^ 32 }
    requires aligned { AreAligned points states.now }
    requires settled { AreSettled program.now inputs.now params.now points states.now }
    ensures { IfOk result (AreMeanings program.now inputs.now params.now) }
{
    let mut points = points;
    let mut values = Values::new(alloc);
    while let Some(list) = points.pop() {
        let x = points.len();
        put(
            alloc,
            program,
            params,
            inputs,
            &mut values,
            x as u32,
            list,
            states_of(states, x),
        )?;
    }
    Ok(values)
}
