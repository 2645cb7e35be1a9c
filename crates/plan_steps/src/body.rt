//! A body as steps, with the constants and loads that they take.

ghost use Rattle.std.specs.Prelude.{◌≡◌, ◌<◌, ◌^◌, OnOk};
ghost use Rattle.plan_steps.specs.Layouts.{empty, with_constant, with_load, with_step, with_point};

use az_lin::List;
use execution::{Instance, Step};
use std::alloc::{AllocError, Global};
use std::marker::Model;

/// The constants and the instances that are loaded stand in the order in which the steps take them.
#[derive(Debug, Drop)]
pub struct Body {
    steps: Vec<Step>,
    constants: Vec<i64>,
    loads: Vec<Instance>,
    points: u64,
}

impl Model for Body {
    ghost use Rattle.std.specs.Coded.{codes};
    ghost use Rattle.plan_steps.specs.Layouts.{Layout};

    ghost Value = { Layout };

    ghost coded = { Prim.hlevel codes };

    ghost view = { λ body. record { steps = body.steps.items; constants = body.constants.items; loads = body.loads.items; points = body.points } };
}

impl Body {
    /// No steps.
    pub fn new(alloc: Global) -> Body
        ensures { result ≡ empty }
    {
        Body {
            steps: Vec::new(alloc),
            constants: Vec::new(alloc),
            loads: Vec::new(alloc),
            points: 0,
        }
    }

    pub fn steps(&self) -> &[Step]
        ensures { result.now ≡ self.now.steps }
    {
        self.steps.as_slice()
    }

    pub fn constants(&self) -> &[i64]
        ensures { result.now ≡ self.now.constants }
    {
        self.constants.as_slice()
    }

    /// What is loaded, in order of evaluation.
    pub fn loads(&self) -> &[Instance]
        ensures { result.now ≡ self.now.loads }
    {
        self.loads.as_slice()
    }

    /// How many points the body's reductions have.
    pub fn points(&self) -> u64
        ensures { result ≡ self.now.points }
    {
        self.points
    }

    /// Lets all steps go, and keeps their room.
    pub(crate) fn clear(&mut self)
        ensures { self.new ≡ empty }
    {
        self.steps.clear();
        self.constants.clear();
        self.loads.clear();
        self.points = 0;
    }

    pub(crate) fn push_constant(&mut self, value: i64) -> Result<(), AllocError>
        ensures { OnOk result (self.new ≡ with_constant self.old value) }
    {
        self.steps.push(Step::Constant)?;
        self.constants.push(value)?;
        Ok(())
    }

    pub(crate) fn push_load(
        &mut self,
        alloc: Global,
        variable: u32,
        point: &[i128],
    ) -> Result<(), AllocError>
        ensures { OnOk result (self.new ≡ with_load self.old (record { variable = variable; point = point.now })) }
    {
        let point = List::from_vec(Vec::from_slice(alloc, point)?);
        self.steps.push(Step::Loaded)?;
        self.loads.push(Instance { variable, point })?;
        Ok(())
    }

    /// An operation on what stands on the stack.
    pub(crate) fn push_operation(&mut self, step: Step) -> Result<(), AllocError>
        ensures { OnOk result (self.new ≡ with_step self.old step) }
    {
        self.steps.push(step)?;
        Ok(())
    }

    pub(crate) fn count_point(&mut self)
        requires { self.old.points < 2 ^ 63 }
        ensures { self.new ≡ with_point self.old }
    {
        self.points += 1;
    }
}
