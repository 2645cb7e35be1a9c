//! The point whose equation is evaluated, and how its reads are answered.

ghost use Rattle.std.specs.Prelude.{◌≡◌, ◌<◌, ◌≤◌, All, IfOk, IfSome, IfNone, vec_len};
ghost use Rattle.value_walk.specs.Inner.Ready.{IsAnswered, SlotAnswers, AreStates, IsPending, MeansIn};

use crate::scene::Scene;
use crate::slot::{Slot, State};
use az_ast::Role;
use sqlite_items::Items;
use std::alloc::AllocError;

#[derive(Drop)]
pub(crate) struct Reader<'a> {
    pub(crate) scene: &'a Scene<'a>,
    pub(crate) slot: Slot,
}

impl Reader<'_> {
    fn slot_value(
        &self,
        states: &[Items<State>],
        x: u32,
        k: &[i128],
        reads: &mut Vec<Slot>,
    ) -> Result<Option<i64>, AllocError>
        requires states { AreStates self.now.scene.now states.now }
        requires listed { SlotAnswers self.now.scene.now self.now.slot x k.now }
        requires pending { All (IsPending self.now.scene.now self.now.slot states.now) reads.old.items }
        ensures pending { All (IsPending self.now.scene.now self.now.slot states.now) reads.new.items }
        ensures more { vec_len reads.old ≤ vec_len reads.new }
        ensures value { IfOk result (λ found. IfSome found (MeansIn self.now.scene.now x k.now)) }
        ensures none { IfOk result (λ found. IfNone found (0 < vec_len reads.new)) }
    {
        let slot = self.scene.slot_of(self.slot, states, x, k);
        match self.scene.state_of(states, slot) {
            State::Known(value) => Ok(Some(value)),
            State::Unknown | State::Open => {
                reads.push(slot)?;
                Ok(None)
            }
        }
    }

    /// The value at the indices `k` of the variable, unless it is one of a point whose value isn't
    /// known, which is put among the reads then.
    pub(crate) fn read(
        &self,
        states: &[Items<State>],
        x: u32,
        k: &[i128],
        reads: &mut Vec<Slot>,
    ) -> Result<Option<i64>, AllocError>
        requires states { AreStates self.now.scene.now states.now }
        requires answered { IsAnswered self.now.scene.now self.now.slot x self.now.scene.now.params.now k.now }
        requires pending { All (IsPending self.now.scene.now self.now.slot states.now) reads.old.items }
        ensures pending { All (IsPending self.now.scene.now self.now.slot states.now) reads.new.items }
        ensures more { vec_len reads.old ≤ vec_len reads.new }
        ensures value { IfOk result (λ found. IfSome found (MeansIn self.now.scene.now x k.now)) }
        ensures none { IfOk result (λ found. IfNone found (0 < vec_len reads.new)) }
    {
        let Some(variable) = self.scene.program.variables().get(x as usize) else {
            unreachable!()
        };
        match variable.role {
            Role::Input => Ok(Some(self.scene.input_value(x, k))),
            Role::Output => self.slot_value(states, x, k, reads),
            Role::Local => self.slot_value(states, x, k, reads),
        }
    }
}
