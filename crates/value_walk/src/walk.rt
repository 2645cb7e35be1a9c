//! The walk: points that are asked for and points that wait stand on one stack.

ghost use Rattle.std.specs.Prelude.{◌≡◌, ◌<◌, ◌≤◌, ◌^◌, ◌⊎◌, [], ◌∷◌, Some, length, OnOk, IfErr, vec_len, All};
ghost use Rattle.value_walk.specs.Meanings.{IsCause};
ghost use Rattle.value_walk.specs.declared.step.Step.TheVariants.{Begun};
ghost use Rattle.value_walk.specs.Inner.Slots.{IsSlot, states_of, state_of, IsKnown};
ghost use Rattle.value_walk.specs.Inner.Ready.{AreBodiesReady, IsPending};
ghost use Rattle.value_walk.specs.Inner.Walks.{IsGood, IsLinked, IsReadFrom, IsIn, IsDue, AreKept, latest, name_of, unknown, with_state};

use crate::cycle::cycle;
use crate::reader::Reader;
use crate::refusal::EvalRefusal;
use crate::scene::Scene;
use crate::slot::{Slot, State};
use crate::stack::Stack;
use crate::step::Step;
use sqlite_items::Items;
use std::alloc::{AllocError, Global};

#[derive(Drop)]
pub(crate) struct Walk {
    pub(crate) states: Vec<Items<State>>,
    pub(crate) work: Stack<Step>,
}

/// Asks for the points that a slot reads, the first one on top.
fn ask(
    scene: &Scene,
    states: &[Items<State>],
    reader: Slot,
    work: &mut Stack<Step>,
    reads: &[Slot],
) -> Result<(), AllocError>
    requires linked { IsLinked scene.now work.old }
    requires reader { latest work.old ≡ Some reader }
    requires pending { All (IsPending scene.now reader states.now) reads.now }
    ensures linked { OnOk result (IsLinked scene.now work.new) }
    ensures reader { OnOk result (latest work.new ≡ Some reader) }
    ensures kept { OnOk result ((step : Step) → IsIn step work.old → IsIn step work.new) }
{
    let mut left = reads.len();
    while left > 0 {
        left -= 1;
        work.push(Step::Asked(reads[left]))?;
    }
    Ok(())
}

impl Walk {
    pub(crate) fn set(&mut self, slot: Slot, state: State)
        requires { slot.place < length (states_of self.old.states.items slot.variable) }
        ensures states { self.new.states.items ≡ with_state self.old.states.items slot state }
        ensures work { self.new.work ≡ self.old.work }
    {
        self.states[slot.variable as usize].set(slot.place, state);
    }

    /// Begins a point whose value isn't known. One that is begun already closes a chain.
    fn open(&mut self, alloc: Global, scene: &Scene, slot: Slot) -> Result<(), EvalRefusal>
        requires good { IsGood scene.now self.old.states.items self.old.work }
        requires slot { IsSlot scene.now.points.now slot }
        requires read { IsReadFrom scene.now (latest self.old.work) (name_of scene.now slot) }
        requires unknown { IsKnown (state_of self.old.states.items slot) → ⊥ }
        ensures good { OnOk result (IsGood scene.now self.new.states.items self.new.work) }
        ensures begun { OnOk result (self.new.work ≡ Begun slot ∷ self.old.work) }
        ensures kept { OnOk result (AreKept scene.now self.old.states.items self.old.work self.new.states.items self.new.work) }
        ensures less { OnOk result (unknown self.new.states.items < unknown self.old.states.items) }
        ensures bound { OnOk result (length self.new.work < 2 ^ 64) }
        ensures cause { IfErr result (IsCause scene.now.program.now scene.now.params.now) }
    {
        match scene.state_of(&self.states, slot) {
            State::Known(_) => unreachable!(),
            State::Open => Err(cycle(alloc, scene, &mut self.work, slot)),
            State::Unknown => {
                self.set(slot, State::Open);
                self.work.push(Step::Begun(slot))?;
                Ok(())
            }
        }
    }

    /// Evaluates a point that was begun, or asks for the points that it waits for.
    fn settle(&mut self, alloc: Global, scene: &Scene, slot: Slot) -> Result<(), EvalRefusal>
        requires ready { AreBodiesReady scene.now }
        requires good { IsGood scene.now self.old.states.items (Begun slot ∷ self.old.work) }
        ensures good { OnOk result (IsGood scene.now self.new.states.items self.new.work) }
        ensures kept { OnOk result (AreKept scene.now self.old.states.items (Begun slot ∷ self.old.work) self.new.states.items self.new.work) }
        ensures progress { OnOk result (
            ((unknown self.new.states.items < unknown self.old.states.items) × (length self.new.work < 2 ^ 64)) ⊎
            ((unknown self.new.states.items ≤ unknown self.old.states.items) × (self.new.work ≡ self.old.work))) }
        ensures cause { IfErr result (IsCause scene.now.program.now scene.now.params.now) }
    {
        let mut reads = Vec::new(alloc);
        let reader = Reader { scene, slot };
        match reader.value(alloc, &self.states, &mut reads) {
            Err(fault) => Err(EvalRefusal::of_scan(fault)),
            Ok(Some(value)) => {
                self.set(slot, State::Known(value));
                Ok(())
            }
            Ok(None) => {
                let first = reads[0];
                self.work.push(Step::Begun(slot))?;
                ask(scene, &self.states, slot, &mut self.work, &reads)?;
                self.open(alloc, scene, first)
            }
        }
    }

    /// Walks until the value of the point is known.
    pub(crate) fn run(
        &mut self,
        alloc: Global,
        scene: &Scene,
        root: Slot,
    ) -> Result<(), EvalRefusal>
        requires ready { AreBodiesReady scene.now }
        requires good { IsGood scene.now self.old.states.items self.old.work }
        requires empty { self.old.work ≡ [] }
        requires slot { IsSlot scene.now.points.now root }
        ensures good { OnOk result (IsGood scene.now self.new.states.items self.new.work) }
        ensures empty { OnOk result (self.new.work ≡ []) }
        ensures kept { OnOk result ((slot : Slot) → IsSlot scene.now.points.now slot → IsKnown (state_of self.old.states.items slot) → IsKnown (state_of self.new.states.items slot)) }
        ensures known { OnOk result (IsKnown (state_of self.new.states.items root)) }
        ensures cause { IfErr result (IsCause scene.now.program.now scene.now.params.now) }
    {
        self.work.push(Step::Asked(root))?;
        while let Some(step) = self.work.pop() {
            match step {
                Step::Begun(slot) => self.settle(alloc, scene, slot)?,
                Step::Asked(slot) => {
                    if let State::Known(_) = scene.state_of(&self.states, slot) {
                        continue;
                    }
                    self.open(alloc, scene, slot)?;
                }
            }
        }
        Ok(())
    }
}
