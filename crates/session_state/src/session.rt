//! What the commands of a script work on.

ghost use Rattle.std.specs.Prelude.{◌≡◌, Some, IfOk, IfErr};
ghost use Rattle.az_ast.specs.declared.reason.Reason.TheVariants.{NoProgram};
ghost use Rattle.session_state.specs.Session.{IsOfProgram, IsSound, changed, fresh, mapped, opened, lent};
ghost use Rattle.session_state.specs.Steps.{TakesAlone};
ghost use Rattle.session_state.specs.declared.refusal.Refusal.TheVariants.{Command};
ghost use Rattle.session_state.specs.declared.stop.Stop.TheVariants.{Refused, Memory};
ghost use Rattle.target_map.specs.Settings.{Fits};

use crate::{Refusal, Stop, Verified, unset};
use az_ast::{Checked, Inputs, Reason};
use az_lin::List;
use std::alloc::Global;
use target_map::Mapping;

/// A program, and what was set, read and mapped for it.
#[derive(Debug, Drop)]
pub struct Loaded {
    /// As it was read.
    pub source: Checked,
    /// As the commands since have changed it.
    pub current: Checked,
    /// For each parameter in order its number, where it has one.
    pub settings: List<Option<i128>>,
    /// The tables of inputs that were read.
    pub inputs: Inputs,
    /// When the instances of the current program are carried out, and where their values are kept.
    pub mapping: Mapping,
    /// The last yes of a verification, if neither program nor mapping was changed since.
    pub verified: Option<Verified>,
}

/// Nothing before a program is read.
pub type Session = Option<Loaded>;

/// A program that was just read.
pub fn fresh(alloc: Global, program: Checked) -> Result<Loaded, Stop>
    ensures ok { IfOk result (λ loaded. loaded ≡ fresh program) }
    ensures cause { IfErr result (λ stop. stop ≡ Memory) }
    ensures sound { IfOk result (λ loaded. IsSound (Some loaded)) }
{
    let settings = List::from_vec(unset(alloc, program.program())?);
    let Ok(current) = program.copy(alloc) else {
        return Err(Stop::Memory);
    };
    Ok(Loaded {
        source: program,
        current,
        settings,
        inputs: Inputs::new(alloc),
        mapping: Mapping::new(alloc),
        verified: None,
    })
}

/// Puts another program with the same parameters in the place of the current one.
pub fn change(alloc: Global, loaded: &mut Loaded, program: Checked)
    ensures value { loaded.new ≡ changed loaded.old program }
    ensures sound { program.params ≡ loaded.old.current.params → IsOfProgram loaded.old → IsOfProgram loaded.new }
{
    loaded.current = program;
    loaded.mapping = Mapping::new(alloc);
    loaded.verified = None;
}

/// Puts another mapping in the place of the current one.
pub fn remap(loaded: &mut Loaded, mapping: Mapping)
    ensures value { loaded.new ≡ mapped loaded.old mapping }
    ensures sound { Fits loaded.old.current mapping → IsOfProgram loaded.old → IsOfProgram loaded.new }
{
    loaded.mapping = mapping;
    loaded.verified = None;
}

/// Why every command but the first stops where no program was read.
pub fn no_program() -> Stop
    ensures { result ≡ Refused (Command NoProgram) }
{
    Stop::Refused(Refusal::Command(Reason::NoProgram))
}

/// The program that commands work on.
pub fn opened(session: &Session) -> Result<&Loaded, Stop>
    ensures answer { TakesAlone (opened session.now) (lent result) }
    ensures sound { IsSound session.now → IfOk result (λ loaded. IsOfProgram loaded.now) }
{
    match session {
        Some(loaded) => Ok(loaded),
        None => Err(no_program()),
    }
}
