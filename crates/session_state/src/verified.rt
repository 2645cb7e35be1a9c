//! What a verification gave.

ghost use Rattle.std.specs.Prelude.{IfOk};
ghost use Rattle.session_state.specs.Session.{IsOfProgram, IsVerified, lent, verified_mapping};
ghost use Rattle.session_state.specs.Steps.{TakesAlone};

use crate::{Loaded, Refusal, Stop};
use az_ast::Reason;
use cert_text::Certificate;
use target_map::CertifiedMap;

/// The last yes: the program and mapping that it was said of, and what shows it.
#[derive(Debug, Drop)]
pub struct Verified {
    pub certified: CertifiedMap,
    pub certificate: Certificate,
}

/// The last yes of the program and the mapping as they stand, which all commands ask for that carry the
/// program out or write the certificate.
pub fn verified_mapping(loaded: &Loaded) -> Result<&Verified, Stop>
    ensures answer { TakesAlone (verified_mapping loaded.now) (lent result) }
    ensures sound { IsOfProgram loaded.now → IfOk result (λ verified. IsVerified loaded.now.current loaded.now.mapping verified.now) }
{
    match &loaded.verified {
        Some(verified) => Ok(verified),
        None => Err(Stop::Refused(Refusal::Command(Reason::NotCertified))),
    }
}
