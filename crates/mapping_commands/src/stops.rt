//! Why a setting stops.

ghost use Rattle.std.specs.Prelude.{◌≡◌, IfErr, IfOk};
ghost use Rattle.mapping_commands.specs.Stops.{stop_of};
ghost use Rattle.session_state.specs.declared.refusal.Refusal.TheVariants.{Command};
ghost use Rattle.session_state.specs.declared.stop.Stop.TheVariants.{Refused, Memory};

use az_ast::Reason;
use session_state::{Refusal, Stop};
use std::alloc::Global;
use target_map::{MapFault, Mapping};

pub(crate) fn refused(reason: Reason) -> Stop
    ensures { result ≡ Refused (Command reason) }
{
    Stop::Refused(Refusal::Command(reason))
}

/// Why a call on a mapping stops a command.
pub(crate) fn stop_of(fault: MapFault) -> Stop
    ensures { result ≡ stop_of fault }
{
    match fault {
        MapFault::Reason(reason) => refused(reason),
        MapFault::Memory => Stop::Memory,
    }
}

/// An equal mapping, which can be changed and be let go.
pub(crate) fn copied(alloc: Global, mapping: &Mapping) -> Result<Mapping, Stop>
    ensures ok { IfOk result (λ copied. copied ≡ mapping.now) }
    ensures cause { IfErr result (λ stop. stop ≡ Memory) }
{
    match mapping.copy(alloc) {
        Ok(copied) => Ok(copied),
        Err(fault) => Err(stop_of(fault)),
    }
}
