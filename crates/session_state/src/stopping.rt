//! What is said of a step that isn't passed.

ghost use Rattle.session_state.specs.Stopping.{IsLineSaid, IsStopSaid};

use crate::{Refusal, Stop, line, say};
use az_desk::Desk;
use std::alloc::Global;

fn say_line<D: Desk>(alloc: Global, desk: &mut D, front: &str, refusal: Refusal) -> Stop
    ensures { IsLineSaid front.now refusal (D.seen desk.old) result (D.seen desk.new) }
{
    let Ok(line) = line(alloc, front, &refusal) else {
        return Stop::Memory;
    };
    match say(alloc, desk, line.as_bytes()) {
        Ok(()) => Stop::Refused(refusal),
        Err(stop) => stop,
    }
}

/// Says the line of a refusal behind the front, and nothing for a fault or want of memory. Gives how the run
/// ends then, which is otherwise where to say the line failed.
pub fn say_stop<D: Desk>(alloc: Global, desk: &mut D, front: &str, stop: Stop) -> Stop
    ensures { IsStopSaid front.now stop (D.seen desk.old) result (D.seen desk.new) }
{
    match stop {
        Stop::Refused(refusal) => say_line(alloc, desk, front, refusal),
        Stop::Fault(call) => Stop::Fault(call),
        Stop::Memory => Stop::Memory,
    }
}
