//! The values of a program's parameters.

ghost use Rattle.std.specs.Prelude.{◌≡◌, All, IfOk, length};
ghost use Rattle.az_lin.specs.Affine.{IsEntry, HoldsSome};
ghost use Rattle.az_ast.specs.Shapes.{IsProgram};
ghost use Rattle.data_commands.specs.Parameters.{all_set, params};
ghost use Rattle.session_state.specs.Settings.{AreSettings};
ghost use Rattle.session_state.specs.Steps.{TakesAlone};
ghost use Rattle.session_state.specs.declared.refusal.Refusal.TheVariants.{Command};
ghost use Rattle.session_state.specs.declared.stop.Stop.TheVariants.{Refused};
ghost use Rattle.az_ast.specs.declared.reason.Reason.TheVariants as reason;

use az_ast::{Program, Reason};
use az_lin::List;
use session_state::{Refusal, Stop};
use std::alloc::Global;

fn unset() -> Stop
    ensures { result ≡ Refused (Command reason.Params) }
{
    Stop::Refused(Refusal::Command(Reason::Params))
}

fn all_set(alloc: Global, settings: &[Option<i128>]) -> Result<List<i128>, Stop>
    ensures { TakesAlone (all_set settings.now) result }
{
    let mut values = Vec::with_capacity(alloc, settings.len())?;
    'settings: for setting in settings {
        match setting {
            Some(value) => values.push(*value)?,
            None => return Err(unset()),
        }
    }
    Ok(List::from_vec(values))
}

/// The values of the parameters, as they are set.
pub fn params(
    alloc: Global,
    program: &Program,
    settings: &[Option<i128>],
) -> Result<List<i128>, Stop>
    requires rules { IsProgram program.now }
    requires set { AreSettings program.now settings.now }
    ensures answer { TakesAlone (params program.now settings.now) result }
    // Whatever takes the values of parameters asks for this.
    ensures entries { IfOk result (All IsEntry) }
    ensures count { IfOk result (λ values. length values ≡ length program.now.params) }
    ensures inside { IfOk result (HoldsSome program.now.pdom) }
{
    let values = all_set(alloc, settings)?;
    if !program.pdom().holds_params(values.as_slice()) {
        return Err(unset());
    }
    Ok(values)
}
