//! The end of a run: its listing is said.

ghost use Rattle.session_state.specs.Endings.{IsSaid};

use crate::Stop;
use az_desk::{Call, Desk, DeskFault};
use std::alloc::Global;

/// Says the whole listing.
pub fn say<D: Desk>(alloc: Global, desk: &mut D, listing: &[u8]) -> Result<(), Stop>
    ensures { IsSaid listing.now (D.seen desk.old) result (D.seen desk.new) }
{
    match desk.say(alloc, listing) {
        Ok(()) => Ok(()),
        Err(DeskFault::Memory) => Err(Stop::Memory),
        Err(_) => Err(Stop::Fault(Call::Say)),
    }
}
