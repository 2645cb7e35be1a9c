//! What is evaluated: a program at some parameters and tables of its inputs, and its points.

ghost use Rattle.std.specs.Prelude.{◌≡◌, IfOk, IfSome};
ghost use Rattle.az_ast.specs.Tables.{TableGives};
ghost use Rattle.value_walk.specs.Inner.Slots.{IsSlot, point_of, state_of};
ghost use Rattle.value_walk.specs.Inner.Ready.{InputAnswers, SlotAnswers, AreStates, MeansIn};
ghost use Rattle.value_walk.specs.Inner.Walks.{name_of};

use crate::code::Code;
use crate::grid::Grid;
use crate::place::{is_point, place_of};
use crate::refusal::PointName;
use crate::slot::{Slot, State};
use az_ast::{Inputs, Program, Table};
use az_lin::List;
use sqlite_items::Items;
use std::alloc::{AllocError, Global};

/// The points of the outputs and locals stand by the numbers of the variables, and so do the bodies of
/// the equations. The grids guess where a point stands among those of its variable, or its row in the
/// table of an input.
#[derive(Drop)]
pub(crate) struct Scene<'a> {
    pub(crate) program: &'a Program,
    pub(crate) params: &'a [i128],
    pub(crate) inputs: &'a Inputs,
    pub(crate) points: &'a [List<List<i128>>],
    pub(crate) bodies: &'a [Code],
    pub(crate) grids: &'a [Grid],
}

/// The value of the row at this place, if it has this point.
fn value_at(table: &Table, k: &[i128], place: usize) -> Option<i64>
    ensures { IfSome result (TableGives table.now k.now) }
{
    let rows = table.rows();
    if place < rows.len() && is_point(&rows[place].0, k) {
        Some(rows[place].1)
    } else {
        None
    }
}

impl Scene<'_> {
    /// Where the point may stand.
    fn guess(&self, x: u32, k: &[i128]) -> usize {
        match self.grids.get(x as usize) {
            Some(grid) => grid.guess(k),
            None => 0,
        }
    }

    pub(crate) fn input_value(&self, x: u32, k: &[i128]) -> i64
        requires { InputAnswers self.now x k.now }
        ensures { MeansIn self.now x k.now result }
    {
        let Some(table) = self.inputs.table(x) else {
            unreachable!()
        };
        if let Some(value) = value_at(table, k, self.guess(x, k)) {
            return value;
        }
        let Some(value) = table.value(k) else {
            unreachable!()
        };
        value
    }

    /// The slot of a point that is read.
    pub(crate) fn slot_of(&self, reader: Slot, states: &[Items<State>], x: u32, k: &[i128]) -> Slot
        requires states { AreStates self.now states.now }
        requires listed { SlotAnswers self.now reader x k.now }
        ensures slot { IsSlot self.now.points.now result }
        ensures variable { result.variable ≡ x }
        ensures point { point_of self.now.points.now result ≡ k.now }
    {
        let place = place_of(self.points[x as usize].as_slice(), k, self.guess(x, k));
        Slot { variable: x, place }
    }

    pub(crate) fn state_of(&self, states: &[Items<State>], slot: Slot) -> State
        requires states { AreStates self.now states.now }
        requires slot { IsSlot self.now.points.now slot }
        ensures { result ≡ state_of states.now slot }
    {
        states[slot.variable as usize].as_slice()[slot.place]
    }

    pub(crate) fn point(&self, slot: Slot) -> &[i128]
        requires { IsSlot self.now.points.now slot }
        ensures { result.now ≡ point_of self.now.points.now slot }
    {
        self.points[slot.variable as usize].as_slice()[slot.place].as_slice()
    }

    pub(crate) fn name_of(&self, alloc: Global, slot: Slot) -> Result<PointName, AllocError>
        requires { IsSlot self.now.points.now slot }
        ensures { IfOk result (λ name. name ≡ name_of self.now slot) }
    {
        let point = List::from_vec(Vec::from_slice(alloc, self.point(slot))?);
        Ok(PointName {
            variable: slot.variable,
            point,
        })
    }
}
