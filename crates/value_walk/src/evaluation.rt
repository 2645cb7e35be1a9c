//! The values of all points of a program.

ghost use Rattle.std.specs.Prelude.{◌≡◌, ◌<◌, ◌^◌, [], ℕ, map, length, All, IfOk, IfErr, OnOk};
ghost use Rattle.az_lin.specs.Affine.{HoldsSome};
ghost use Rattle.value_walk.specs.Inner.Ready.{AreBodiesReady, AreStates};
ghost use Rattle.value_walk.specs.Inner.Slots.{IsSlot, state_of, IsKnown, unknown_for};
ghost use Rattle.value_walk.specs.Points.{ArePoints};
ghost use Rattle.value_walk.specs.Inner.Walks.{IsGood};
ghost use Rattle.value_walk.specs.Meanings.{AreMeanings, HaveInputs, IsCause};

use crate::code::bodies;
use crate::grid::Grid;
use crate::refusal::EvalRefusal;
use crate::scene::Scene;
use crate::slot::{Slot, State};
use crate::stack::Stack;
use crate::tables::tables;
use crate::walk::Walk;
use az_ast::{Checked, Inputs, Values};
use az_lin::List;
use sqlite_items::Items;
use std::alloc::{AllocError, Global};

/// A state for each point, at first unknown.
fn unknown_states(
    alloc: Global,
    points: &[List<List<i128>>],
) -> Result<Vec<Items<State>>, AllocError>
    ensures { IfOk result (λ states. states.items ≡ map unknown_for points.now) }
{
    let mut states = Vec::with_capacity(alloc, points.len())?;
    'points: for list in points {
        states.push(Items::from_vec(vec![in alloc; State::Unknown; list.len()]?))?;
    }
    Ok(states)
}

impl Walk {
    /// Walks from each point of the variable.
    fn settle_all(&mut self, alloc: Global, scene: &Scene, x: u32) -> Result<(), EvalRefusal>
        requires ready { AreBodiesReady scene.now }
        requires good { IsGood scene.now self.old.states.items self.old.work }
        requires empty { self.old.work ≡ [] }
        requires inside { x < length scene.now.points.now }
        ensures good { OnOk result (IsGood scene.now self.new.states.items self.new.work) }
        ensures empty { OnOk result (self.new.work ≡ []) }
        ensures kept { OnOk result ((slot : Slot) → IsSlot scene.now.points.now slot → IsKnown (state_of self.old.states.items slot) → IsKnown (state_of self.new.states.items slot)) }
        ensures known { OnOk result ((place : ℕ) → IsSlot scene.now.points.now (record { variable = x; place = place }) → IsKnown (state_of self.new.states.items (record { variable = x; place = place }))) }
        ensures cause { IfErr result (IsCause scene.now.program.now scene.now.params.now) }
    {
        'places: for place in 0..scene.points[x as usize].len() {
            self.run(alloc, scene, Slot { variable: x, place })?;
        }
        Ok(())
    }
}

/// The state of each point when its value is known. The first pass goes over the variables from the
/// last on, since outputs stand before the locals that they read.
fn settled(alloc: Global, scene: &Scene) -> Result<Vec<Items<State>>, EvalRefusal>
    requires ready { AreBodiesReady scene.now }
    requires points { ArePoints scene.now.program.now scene.now.params.now scene.now.points.now }
    requires few { length scene.now.points.now < 2 ^ 32 }
    ensures states { IfOk result (λ states. AreStates scene.now states.items) }
    ensures known { IfOk result (λ states. (slot : Slot) → IsSlot scene.now.points.now slot → IsKnown (state_of states.items slot)) }
    ensures cause { IfErr result (IsCause scene.now.program.now scene.now.params.now) }
{
    let mut walk = Walk {
        states: unknown_states(alloc, scene.points)?,
        work: Stack::new(alloc),
    };
    let mut left = scene.points.len();
    while left > 0 {
        left -= 1;
        walk.sweep(alloc, scene, left as u32)?;
    }
    'variables: for x in 0..scene.points.len() {
        walk.settle_all(alloc, scene, x as u32)?;
    }
    Ok(walk.states)
}

/// Those of all variables, by their numbers.
fn grids(
    alloc: Global,
    inputs: &Inputs,
    points: &[List<List<i128>>],
) -> Result<Vec<Grid>, AllocError> {
    let mut grids = Vec::with_capacity(alloc, points.len())?;
    for x in 0..points.len() {
        let grid = match inputs.table(u32::try_from(x).unwrap_or(u32::MAX)) {
            Some(table) => Grid::of_rows(alloc, table.rows())?,
            None => Grid::of_points(alloc, points[x].as_slice())?,
        };
        grids.push(grid)?;
    }
    Ok(grids)
}

/// The table of each output and local over its domain, by the numbers of the variables, given the
/// points of each.
pub fn values(
    alloc: Global,
    checked: &Checked,
    params: &[i128],
    inputs: &Inputs,
    points: Items<List<List<i128>>>,
) -> Result<Values, EvalRefusal>
    requires count { length params.now ≡ length checked.now.params }
    requires inside { HoldsSome checked.now.pdom params.now }
    requires inputs { HaveInputs checked.now inputs.now params.now }
    requires points { ArePoints checked.now params.now points }
    requires each { length points ≡ length checked.now.variables }
    requires few { length points < 2 ^ 32 }
    ensures ok { IfOk result (AreMeanings checked.now inputs.now params.now) }
    ensures cause { IfErr result (IsCause checked.now params.now) }
{
    let program = checked.program();
    let variables = program.variables();
    let _ = variables;
    let bodies = bodies(alloc, program)?;
    let codes = bodies.as_slice();
    let listed = points.as_slice();
    let grids = grids(alloc, inputs, listed)?;
    let guesses = grids.as_slice();
    let scene = Scene {
        program,
        params,
        inputs,
        points: listed,
        bodies: codes,
        grids: guesses,
    };
    let states = settled(alloc, &scene)?;
    match tables(alloc, program, params, inputs, points, &states) {
        Ok(values) => Ok(values),
        Err(_) => Err(EvalRefusal::Memory),
    }
}
