//! The texts of files, as commands read and write them.

ghost use Rattle.std.specs.Prelude.{Some};
ghost use Rattle.session_state.specs.Endings.{IsLeft};
ghost use Rattle.session_state.specs.Steps.{Takes, IsStopFor};
ghost use Rattle.session_state.specs.declared.refusal.Refusal.TheVariants.{Text};
ghost use Rattle.session_state.specs.Texts.{text_of};
ghost use Rattle.session_state.specs.Writings.{IsLeftWith, write_to};

use crate::{Refusal, Stop, TextKind, name};
use az_desk::{Call, Desk, DeskFault};
use az_lin::{Limit, List};
use std::alloc::Global;

/// Reads the whole file.
pub fn text_of<D: Desk>(alloc: Global, desk: &mut D, file: &str) -> Result<List<u8>, Stop>
    ensures answer { Takes (text_of (D.seen desk.old).files file.now) result }
    ensures left { IsLeft (D.seen desk.old) result (D.seen desk.new) }
{
    let name = name(alloc, file)?;
    match desk.read(alloc, file) {
        Ok(text) => Ok(text),
        Err(DeskFault::TooLong) => Err(Stop::Refused(Refusal::Limited(Limit::File))),
        Err(DeskFault::Failed) => Err(Stop::Fault(Call::Read(name))),
        Err(DeskFault::Memory) => Err(Stop::Memory),
    }
}

/// Puts the bytes into the file, in the place of what it has.
pub fn write_file<D: Desk>(
    alloc: Global,
    desk: &mut D,
    file: &str,
    bytes: &[u8],
) -> Result<(), Stop>
    ensures answer { Takes (write_to file.now) result }
    ensures left { IsLeftWith (Some (record { name = file.now; bytes = bytes.now })) (D.seen desk.old) result (D.seen desk.new) }
{
    let name = name(alloc, file)?;
    match desk.write(alloc, file, bytes) {
        Ok(()) => Ok(()),
        Err(DeskFault::Memory) => Err(Stop::Memory),
        Err(_) => Err(Stop::Fault(Call::Write(name))),
    }
}

/// Why a command stops for what is wrong with the text of a file.
pub fn text_stop(alloc: Global, file: &str, kind: TextKind, place: usize) -> Stop
    ensures { IsStopFor (Some (Text file.now kind place)) result }
{
    match name(alloc, file) {
        Ok(file) => Stop::Refused(Refusal::Text(file, kind, place)),
        Err(stop) => stop,
    }
}
