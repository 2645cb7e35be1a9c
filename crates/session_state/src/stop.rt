//! How a run or a command ends before its end.

ghost use Rattle.std.specs.Prelude.{◌≡◌, IfErr, IfOk};
ghost use Rattle.session_state.specs.declared.stop.Stop.TheVariants.{Memory};
ghost use Rattle.session_state.specs.Codes.{status};

use crate::Refusal;
use az_desk::Call;
use az_lin::Name;
use std::alloc::{AllocError, AllocFailed, Global};

/// A run or command that is carried out is `Ok`.
#[derive(Debug, Drop)]
pub enum Stop {
    Refused(Refusal),
    /// This call on the desk failed.
    Fault(Call),
    /// Memory ran out.
    Memory,
}

impl From<AllocError> for Stop {
    ghost from_gives = { λ _ e. e ≡ Memory };

    fn from(_: AllocError) -> Self {
        Stop::Memory
    }
}

impl<T: Drop> From<AllocFailed<T>> for Stop {
    ghost from_gives = { λ _ e. e ≡ Memory };

    fn from(_: AllocFailed<T>) -> Self {
        Stop::Memory
    }
}

/// The exit status of a run that ended so.
pub fn status(ending: &Result<(), Stop>) -> u8
    ensures { result ≡ status ending.now }
{
    match ending {
        Ok(()) => 0,
        Err(Stop::Refused(refusal)) => refusal.code(),
        Err(Stop::Fault(Call::Read(_))) => 3,
        Err(Stop::Fault(Call::Write(_) | Call::Say)) => 4,
        Err(Stop::Memory) => 13,
    }
}

/// A name in memory of its own.
pub fn name(alloc: Global, text: &str) -> Result<Name, Stop>
    ensures ok { IfOk result (λ name. name ≡ text.now) }
    ensures cause { IfErr result (λ stop. stop ≡ Memory) }
{
    match Name::from_str(alloc, text) {
        Ok(name) => Ok(name),
        Err(_) => Err(Stop::Memory),
    }
}
