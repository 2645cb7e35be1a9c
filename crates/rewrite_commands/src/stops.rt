//! Why a change that isn't made stops a command.

ghost use Rattle.session_state.specs.Steps.{IsStopFor};
ghost use Rattle.rewrite_commands.specs.Inner.{change_refusal};

use az_ast::Program;
use program_commands::uncertified;
use rewriting::ChangeFault;
use session_state::{Refusal, Spot, Stop};
use std::alloc::Global;

/// In a certification the variables have the numbers that they have in the program.
pub(crate) fn unchanged(alloc: Global, program: &Program, fault: ChangeFault) -> Stop
    ensures { IsStopFor (change_refusal program.now fault) result }
{
    match fault {
        ChangeFault::Reason(reason) => Stop::Refused(Refusal::Command(reason)),
        ChangeFault::Certify(fault) => uncertified(alloc, program, fault),
        ChangeFault::Overflow(_) => Stop::Refused(Refusal::Overflow(Spot::Invert)),
        ChangeFault::Limit(limit) => Stop::Refused(Refusal::Limited(limit)),
        ChangeFault::Memory => Stop::Memory,
    }
}
