//! The commands, each carried out on the session.

ghost use Rattle.std.specs.Prelude.{◌≡◌, ◌≤◌, OnOk, OnErr};
ghost use Rattle.session_state.specs.Session.{IsSound, carried};
ghost use Rattle.session_state.specs.Steps.{Takes, TakesAlone};
ghost use Rattle.session_state.specs.Writings.{IsLeftWith};
ghost use Rattle.verify_commands.specs.Commands.{HasCertificate, certificate_file, verify_target_mapping, write_certificate};

use crate::texts::certificate_text;
use crate::verification::verification;
use az_desk::Desk;
use az_lin::List;
use formula_refute::CaseGate;
use session_state::{Session, Stop, no_program, opened, verified_mapping, write_file};
use std::alloc::Global;
use std::thread::Threads;

/// Verifies the mapping on so many workers, and keeps the yes with its certificate. The gate is told before
/// each case that a worker decides.
pub fn verify_target_mapping<R: Threads + Sync, G: CaseGate + Sync>(
    rt: &R,
    alloc: Global,
    session: &mut Session,
    workers: u32,
    gate: &G,
) -> Result<List<u8>, Stop>
    requires sound { IsSound session.old }
    requires some { 1 ≤ workers }
    requires at_most { workers ≤ 64 }
    ensures answer { TakesAlone (verify_target_mapping session.old) (carried session.new result) }
    ensures kept { OnErr result (session.new ≡ session.old) }
    ensures sound { IsSound session.new }
    ensures shown { OnOk result (HasCertificate session.new) }
{
    let Some(loaded) = session else {
        return Err(no_program());
    };
    let verified = verification(rt, alloc, &loaded.current, &loaded.mapping, workers, gate)?;
    loaded.verified = Some(verified);
    Ok(List::new(alloc))
}

/// Writes the certificate of the last yes into the file.
pub fn write_certificate<D: Desk>(
    alloc: Global,
    desk: &mut D,
    session: &Session,
    file: &str,
) -> Result<List<u8>, Stop>
    requires sound { IsSound session.now }
    ensures answer { Takes (write_certificate session.now file.now) (carried session.now result) }
    ensures left { IsLeftWith (certificate_file session.now file.now) (D.seen desk.old) result (D.seen desk.new) }
{
    let loaded = opened(session)?;
    let verified = verified_mapping(loaded)?;
    let program = loaded.current.program();
    let text = certificate_text(alloc, program, &verified.certificate)?;
    write_file(alloc, desk, file, text.as_slice())?;
    Ok(List::new(alloc))
}
