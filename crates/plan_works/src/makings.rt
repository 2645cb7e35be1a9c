//! How the works of instances are made.

ghost use Rattle.std.specs.Prelude.{◌≡◌, ◌≤◌, ◌<◌, ◌^◌, length, map, All, Contains, OnOk, IfOk, IfErr};
ghost use Rattle.execution.specs.Setting.{Setting};
ghost use Rattle.plan_cells.specs.Laws.{cell_of};
ghost use Rattle.plan_works.specs.WorkOf.{setting, CanMake, load_of, IsWorkOf, RefusesWork};
ghost use Rattle.tile_waves.specs.Waves.{IsInstance};

use crate::task::{Task, TaskLoad};
use az_lin::List;
use execution::Instance;
use loop_scan::ScanFault;
use plan_cells::Cells;
use plan_steps::{Body, Given, Room};
use std::alloc::{AllocError, Global};
use target_map::Mapping;

/// A program with a mapping, at some parameters and tables; all its instances there, and the numbers of
/// their cells.
#[derive(Debug, Clone, Copy)]
pub struct Makings<'a> {
    pub given: Given<'a>,
    pub mapping: &'a Mapping,
    pub instances: &'a [Instance],
    pub cells: &'a Cells,
}

impl Makings<'_> {
    fn cell_of(&self, alloc: Global, u: &Instance) -> Result<u32, AllocError>
        requires can { CanMake (setting self.now.given.program.now self.now.mapping.now self.now.given.params.now self.now.given.inputs.now) self.now.cells.now self.now.instances.now }
        requires listed { Contains self.now.instances.now u.now }
        ensures { IfOk result (λ cell. cell ≡ cell_of self.now.mapping.now self.now.given.params.now self.now.cells.now u.now) }
    {
        let mut z = Vec::from_slice(alloc, self.given.params)?;
        z.extend_from_slice(u.point.as_slice())?;
        let cell = self.cells.cell_of(self.mapping, u.variable, &z);
        Ok(cell as u32)
    }

    fn load_of(&self, alloc: Global, u: &Instance) -> Result<TaskLoad, AllocError>
        requires can { CanMake (setting self.now.given.program.now self.now.mapping.now self.now.given.params.now self.now.given.inputs.now) self.now.cells.now self.now.instances.now }
        requires listed { Contains self.now.instances.now u.now }
        ensures { IfOk result (λ load. load ≡ load_of (setting self.now.given.program.now self.now.mapping.now self.now.given.params.now self.now.given.inputs.now) self.now.cells.now u.now) }
    {
        let cell = self.cell_of(alloc, u)?;
        let named = copied(alloc, u)?;
        Ok(TaskLoad { named, cell })
    }

    fn loads_of(&self, alloc: Global, us: &[Instance]) -> Result<List<TaskLoad>, AllocError>
        requires can { CanMake (setting self.now.given.program.now self.now.mapping.now self.now.given.params.now self.now.given.inputs.now) self.now.cells.now self.now.instances.now }
        requires listed { (u : Instance) → Contains us.now u → Contains self.now.instances.now u }
        ensures { IfOk result (λ loads. loads ≡ map (load_of (setting self.now.given.program.now self.now.mapping.now self.now.given.params.now self.now.given.inputs.now) self.now.cells.now) us.now) }
    {
        let mut loads = Vec::with_capacity(alloc, us.len())?;
        'instances: for u in us {
            loads.push(self.load_of(alloc, u)?)?;
        }
        Ok(List::from_vec(loads))
    }

    /// The work of an instance. What `body` was doesn't matter; its memory is used again.
    pub fn work(
        &self,
        alloc: Global,
        u: &Instance,
        room: Room,
        body: &mut Body,
    ) -> Result<Task, ScanFault>
        requires can { CanMake (setting self.now.given.program.now self.now.mapping.now self.now.given.params.now self.now.given.inputs.now) self.now.cells.now self.now.instances.now }
        requires instance { IsInstance self.now.given.program.now self.now.given.params.now u.now }
        requires few { room.points < 2 ^ 63 }
        ensures ok { IfOk result (IsWorkOf (setting self.now.given.program.now self.now.mapping.now self.now.given.params.now self.now.given.inputs.now) self.now.cells.now u.now) }
        ensures points { OnOk result (body.new.points ≤ room.points) }
        ensures loads { IfOk result (λ task. length task.loads ≤ room.loads) }
        ensures cause { IfErr result (RefusesWork (setting self.now.given.program.now self.now.mapping.now self.now.given.params.now self.now.given.inputs.now) u.now room.points room.loads) }
    {
        match self
            .given
            .settle(alloc, u.variable, u.point.as_slice(), room, body)
        {
            Ok(()) => {}
            Err(fault) => return Err(fault),
        }
        let loads = self.loads_of(alloc, body.loads())?;
        let cell = self.cell_of(alloc, u)?;
        let instance = copied(alloc, u)?;
        let steps = List::from_vec(Vec::from_slice(alloc, body.steps())?);
        let constants = List::from_vec(Vec::from_slice(alloc, body.constants())?);
        Ok(Task {
            instance,
            loads,
            cell,
            steps,
            constants,
        })
    }
}

/// The same instance in memory of its own.
fn copied(alloc: Global, u: &Instance) -> Result<Instance, AllocError>
    ensures { IfOk result (λ copied. copied ≡ u.now) }
{
    let point = List::from_vec(Vec::from_slice(alloc, u.point.as_slice())?);
    Ok(Instance {
        variable: u.variable,
        point,
    })
}
