//! Works in memory.

ghost use Rattle.std.specs.Prelude.{◌≡◌, length};
ghost use Rattle.execution.specs.Plans.{value_of};

use az_lin::List;
use execution::{Instance, Step};
use std::marker::Model;

/// The instance whose value is wanted, and the number of its cell.
#[derive(Debug, Drop)]
pub struct TaskLoad {
    pub(crate) named: Instance,
    pub(crate) cell: u32,
}

impl Model for TaskLoad {
    ghost use Rattle.std.specs.Coded.{codes};
    ghost use Rattle.execution.specs.Plans.{Load};

    ghost Value = { Load };

    ghost coded = { Prim.hlevel codes };

    ghost view = { λ load. record { named = load.named; cell = load.cell } };
}

impl TaskLoad {
    pub fn cell(&self) -> u32
        ensures { result ≡ self.now.cell }
    {
        self.cell
    }
}

/// What is to be done for an instance.
#[derive(Debug, Drop)]
pub struct Task {
    pub(crate) instance: Instance,
    pub(crate) loads: List<TaskLoad>,
    pub(crate) cell: u32,
    pub(crate) steps: List<Step>,
    pub(crate) constants: List<i64>,
}

impl Model for Task {
    ghost use Rattle.std.specs.Coded.{codes};
    ghost use Rattle.std.specs.Prelude.{length};
    ghost use Rattle.execution.specs.Plans.{Work};
    ghost use Rattle.plan_steps.specs.Runs.{Runs};
    ghost use Rattle.plan_steps.specs.Settled.{most_height};

    ghost Value = { Work };

    ghost coded = { Prim.hlevel codes };

    ghost view = { λ task. record { instance = task.instance; loads = task.loads; cell = task.cell; steps = task.steps; constants = task.constants } };

    ghost invariant = { λ task. Runs most_height task.steps (length task.constants) (length task.loads) 0 };
}

impl Task {
    pub fn instance(&self) -> &Instance
        ensures { result.now ≡ self.now.instance }
    {
        &self.instance
    }

    pub fn loads(&self) -> &[TaskLoad]
        ensures { result.now ≡ self.now.loads }
    {
        self.loads.as_slice()
    }

    /// The number of the cell where the value is stored.
    pub fn cell(&self) -> u32
        ensures { result ≡ self.now.cell }
    {
        self.cell
    }

    /// The value of the instance's body, in which the loads have these values.
    pub fn value(&self, loaded: &[i64]) -> i64
        requires { length loaded.now ≡ length self.now.loads }
        ensures { result ≡ value_of self.now loaded.now }
    {
        plan_steps::value_of(self.steps.as_slice(), self.constants.as_slice(), loaded)
    }
}
