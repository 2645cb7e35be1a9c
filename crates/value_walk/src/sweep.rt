//! A first pass over the points, which keeps the values that need no stack.

ghost use Rattle.std.specs.Prelude.{◌≡◌, ◌<◌, [], length, OnOk, IfErr};
ghost use Rattle.value_walk.specs.Inner.Ready.{AreBodiesReady};
ghost use Rattle.value_walk.specs.Inner.Slots.{IsSlot};
ghost use Rattle.value_walk.specs.Inner.Walks.{IsGood};
ghost use Rattle.value_walk.specs.Meanings.{IsCause};

use crate::reader::Reader;
use crate::refusal::EvalRefusal;
use crate::scene::Scene;
use crate::slot::{Slot, State};
use crate::walk::Walk;
use std::alloc::Global;

impl Walk {
    /// Keeps the value of the point, if it reads known values alone.
    fn keep_ready(&mut self, alloc: Global, scene: &Scene, slot: Slot) -> Result<bool, EvalRefusal>
        requires ready { AreBodiesReady scene.now }
        requires good { IsGood scene.now self.old.states.items self.old.work }
        requires empty { self.old.work ≡ [] }
        requires slot { IsSlot scene.now.points.now slot }
        ensures good { OnOk result (IsGood scene.now self.new.states.items self.new.work) }
        ensures empty { OnOk result (self.new.work ≡ []) }
        ensures cause { IfErr result (IsCause scene.now.program.now scene.now.params.now) }
    {
        let mut reads = Vec::new(alloc);
        let reader = Reader { scene, slot };
        match reader.value(alloc, &self.states, &mut reads) {
            Err(fault) => Err(EvalRefusal::of_scan(fault)),
            Ok(Some(value)) => {
                self.set(slot, State::Known(value));
                Ok(true)
            }
            Ok(None) => Ok(false),
        }
    }

    /// Keeps the values of the variable's points in order, up to the first point that waits for
    /// another.
    pub(crate) fn sweep(&mut self, alloc: Global, scene: &Scene, x: u32) -> Result<(), EvalRefusal>
        requires ready { AreBodiesReady scene.now }
        requires good { IsGood scene.now self.old.states.items self.old.work }
        requires empty { self.old.work ≡ [] }
        requires inside { x < length scene.now.points.now }
        ensures good { OnOk result (IsGood scene.now self.new.states.items self.new.work) }
        ensures empty { OnOk result (self.new.work ≡ []) }
        ensures cause { IfErr result (IsCause scene.now.program.now scene.now.params.now) }
    {
        'places: for place in 0..scene.points[x as usize].len() {
            if !self.keep_ready(alloc, scene, Slot { variable: x, place })? {
                return Ok(());
            }
        }
        Ok(())
    }
}
