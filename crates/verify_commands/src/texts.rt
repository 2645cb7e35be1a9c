//! The text of a certificate, as a command writes it.

ghost use Rattle.std.specs.Prelude.{All};
ghost use Rattle.cert_text.specs.Lines.{IsOfProgram};
ghost use Rattle.cert_text.specs.Versions.{IsVersion};
ghost use Rattle.session_state.specs.Steps.{TakesAlone};
ghost use Rattle.verify_commands.specs.Commands.{certificate_text};

use az_ast::Program;
use az_lin::List;
use cert_text::{CertFault, Certificate, write_certificate};
use session_state::{Refusal, Stop};
use std::alloc::Global;

pub(crate) fn certificate_text(
    alloc: Global,
    program: &Program,
    certificate: &Certificate,
) -> Result<List<u8>, Stop>
    requires version { IsVersion certificate.now.version }
    requires own { All (λ proved. IsOfProgram program.now proved.which) certificate.now.proved }
    ensures { TakesAlone (certificate_text program.now certificate.now) result }
{
    match write_certificate(alloc, certificate, program) {
        Ok(text) => Ok(text),
        Err(CertFault::Limit(limit)) => Err(Stop::Refused(Refusal::Limited(limit))),
        Err(CertFault::BadLine(_)) => unreachable!(),
        Err(CertFault::Memory) => Err(Stop::Memory),
    }
}
