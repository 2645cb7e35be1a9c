//! The closed chain that stands on the stack where a point is asked for that is begun.

ghost use Rattle.std.specs.Prelude.{◌≡◌, IfOk};
ghost use Rattle.value_walk.specs.Chains.{IsClosedChain};
ghost use Rattle.value_walk.specs.Meanings.{IsCause};
ghost use Rattle.value_walk.specs.declared.step.Step.TheVariants.{Begun};
ghost use Rattle.value_walk.specs.Inner.Slots.{IsSlot};
ghost use Rattle.value_walk.specs.Inner.Walks.{IsLinked, IsReadFrom, IsIn, latest, name_of};

use crate::refusal::{EvalRefusal, PointName};
use crate::scene::Scene;
use crate::slot::Slot;
use crate::stack::Stack;
use crate::step::Step;
use az_lin::List;
use std::alloc::{AllocError, Global};

/// The points from the one that is asked for up to the top.
fn chain_to(
    alloc: Global,
    scene: &Scene,
    work: &mut Stack<Step>,
    target: Slot,
) -> Result<List<PointName>, AllocError>
    requires linked { IsLinked scene.now work.old }
    requires read { IsReadFrom scene.now (latest work.old) (name_of scene.now target) }
    requires begun { IsIn (Begun target) work.old }
    ensures { IfOk result (IsClosedChain scene.now.program.now scene.now.params.now) }
{
    let mut chain = Stack::new(alloc);
    while let Some(step) = work.pop() {
        match step {
            Step::Asked(_) => continue,
            Step::Begun(slot) => {
                chain.push(scene.name_of(alloc, slot)?)?;
                if slot == target {
                    return Ok(chain.into_list());
                }
            }
        }
    }
    unreachable!()
}

pub(crate) fn cycle(
    alloc: Global,
    scene: &Scene,
    work: &mut Stack<Step>,
    target: Slot,
) -> EvalRefusal
    requires linked { IsLinked scene.now work.old }
    requires read { IsReadFrom scene.now (latest work.old) (name_of scene.now target) }
    requires begun { IsIn (Begun target) work.old }
    ensures { IsCause scene.now.program.now scene.now.params.now result }
{
    match chain_to(alloc, scene, work, target) {
        Ok(chain) => EvalRefusal::Cycle(chain),
        Err(_) => EvalRefusal::Memory,
    }
}
