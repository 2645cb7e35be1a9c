//! The bindings of an evaluation.

ghost use Rattle.std.specs.Prelude.{◌≡◌, IfOk, OnErr, length};
ghost use Rattle.std.specs.FinMap.{empty};
ghost use Rattle.alphaz_cli.specs.Bound.{set_bound, read_bound};
ghost use Rattle.data_commands.specs.Tables.{AreRead};
ghost use Rattle.session_state.specs.Endings.{IsLeft};
ghost use Rattle.session_state.specs.Settings.{AreSettings, unset};
ghost use Rattle.session_state.specs.Steps.{Takes, TakesAlone, each_in, with_value};

use az_ast::{Inputs, Program};
use az_desk::Desk;
use az_lin::List;
use command_words::Binding;
use data_commands::read_input;
use session_state::{Stop, set_parameter, unset};
use std::alloc::Global;

fn set_bound(
    alloc: Global,
    program: &Program,
    settings: &mut [Option<i128>],
    binding: &Binding,
) -> Result<(), Stop>
    requires { length settings.old ≡ length program.now.params }
    ensures answer { TakesAlone (set_bound program.now settings.old binding.now) (with_value settings.new result) }
    ensures same_length { length settings.new ≡ length settings.old }
{
    match binding {
        Binding::Parameter { name, number } => {
            set_parameter(alloc, program, settings, name.as_str(), *number)
        }
        Binding::Table { .. } => Ok(()),
    }
}

/// Sets the numbers that are bound, in order.
fn set_each(
    alloc: Global,
    program: &Program,
    settings: &mut [Option<i128>],
    bindings: &[Binding],
) -> Result<(), Stop>
    requires { length settings.old ≡ length program.now.params }
    ensures { TakesAlone (each_in (set_bound program.now) settings.old bindings.now) (with_value settings.new result) }
{
    for binding in bindings {
        set_bound(alloc, program, settings, binding)?;
    }
    Ok(())
}

/// The numbers that the bindings give the parameters.
pub(crate) fn set_all(
    alloc: Global,
    program: &Program,
    bindings: &[Binding],
) -> Result<List<Option<i128>>, Stop>
    ensures answer { TakesAlone (each_in (set_bound program.now) (unset program.now) bindings.now) result }
    ensures set { IfOk result (AreSettings program.now) }
{
    let mut settings = unset(alloc, program)?;
    set_each(alloc, program, &mut settings, bindings)?;
    Ok(List::from_vec(settings))
}

fn read_bound<D: Desk>(
    alloc: Global,
    desk: &mut D,
    program: &Program,
    settings: &[Option<i128>],
    inputs: &mut Inputs,
    binding: &Binding,
) -> Result<(), Stop>
    requires { AreSettings program.now settings.now }
    ensures answer { Takes (read_bound program.now (D.seen desk.old).files settings.now inputs.old binding.now) (with_value inputs.new result) }
    ensures left { IsLeft (D.seen desk.old) result (D.seen desk.new) }
{
    match binding {
        Binding::Parameter { .. } => Ok(()),
        Binding::Table { name, file } => read_input(
            alloc,
            desk,
            program,
            settings,
            inputs,
            name.as_str(),
            file.as_str(),
        ),
    }
}

/// The tables that are bound, each read in order.
pub(crate) fn read_all<D: Desk>(
    alloc: Global,
    desk: &mut D,
    program: &Program,
    settings: &[Option<i128>],
    bindings: &[Binding],
) -> Result<Inputs, Stop>
    requires { AreSettings program.now settings.now }
    ensures answer { Takes (each_in (read_bound program.now (D.seen desk.old).files settings.now) empty bindings.now) result }
    ensures left { IsLeft (D.seen desk.old) result (D.seen desk.new) }
    ensures read { IfOk result (AreRead program.now settings.now) }
{
    let mut inputs = Inputs::new(alloc);
    for binding in bindings {
        read_bound(alloc, desk, program, settings, &mut inputs, binding)?;
    }
    Ok(inputs)
}
