//! The rows of a program's outputs.

ghost use Rattle.std.specs.Prelude.{◌≡◌, All, IfErr, IfOk, length, map};
ghost use Rattle.std.specs.Option.{option_copied};
ghost use Rattle.az_lin.specs.Affine.{IsEntry, HoldsSome};
ghost use Rattle.data_commands.specs.Outputs.{untabled, every_table, evaluation_refusal, evaluated, output_rows};
ghost use Rattle.data_commands.specs.Tables.{AreRead};
ghost use Rattle.session_state.specs.Settings.{AreSettings};
ghost use Rattle.session_state.specs.Steps.{TakesAlone, IsStopFor};
ghost use Rattle.session_state.specs.declared.stop.Stop.TheVariants.{Memory};
ghost use Rattle.value_walk.specs.Meanings.{HaveInputs};

use crate::inputs::is_input;
use crate::parameters::params;
use az_ast::{Checked, Inputs, Program, Reason, Variable};
use az_lin::{List, Name};
use equation_meaning::{EvalRefusal, evaluate};
use session_state::{Refusal, Spot, Stop, name};
use std::alloc::Global;
use table_data::write_outputs;

/// The first input without a table.
fn untabled<'a>(program: &'a Program, inputs: &Inputs) -> Option<&'a Name>
    ensures { option_copied result ≡ untabled inputs.now program.now.variables 0 }
{
    let variables = program.variables();
    'variables: for x in 0..variables.len() {
        let variable = &variables[x];
        if is_input(variable.role) && inputs.table(x as u32).is_none() {
            return Some(&variable.name);
        }
    }
    None
}

fn every_table(alloc: Global, program: &Program, inputs: &Inputs) -> Result<(), Stop>
    ensures { TakesAlone (every_table program.now inputs.now) result }
{
    match untabled(program, inputs) {
        Some(input) => {
            let untabled = Reason::NoTable(name(alloc, input.as_str())?);
            Err(Stop::Refused(Refusal::Command(untabled)))
        }
        None => Ok(()),
    }
}

/// The names of the variables, by their numbers.
fn names_of(alloc: Global, variables: &[Variable]) -> Result<List<Name>, Stop>
    ensures ok { IfOk result (λ names. names ≡ map (λ variable. variable.name) variables.now) }
    ensures cause { IfErr result (λ stop. stop ≡ Memory) }
{
    let mut names = Vec::with_capacity(alloc, variables.len())?;
    'variables: for variable in variables {
        names.push(name(alloc, variable.name.as_str())?)?;
    }
    Ok(List::from_vec(names))
}

/// Why a program that has no values stops a command.
fn evaluation_stop(alloc: Global, program: &Program, refusal: EvalRefusal) -> Stop
    ensures { IsStopFor (evaluation_refusal program.now refusal) result }
{
    match refusal {
        EvalRefusal::Cycle(chain) => match names_of(alloc, program.variables()) {
            Ok(names) => Stop::Refused(Refusal::Cycle { chain, names }),
            Err(stop) => stop,
        },
        EvalRefusal::Overflow => Stop::Refused(Refusal::Overflow(Spot::Scan)),
        EvalRefusal::Entry => Stop::Refused(Refusal::Command(Reason::Entry)),
        EvalRefusal::Limit(limit) => Stop::Refused(Refusal::Limited(limit)),
        EvalRefusal::Memory => Stop::Memory,
    }
}

fn evaluated(
    alloc: Global,
    checked: &Checked,
    values: &[i128],
    inputs: &Inputs,
) -> Result<List<u8>, Stop>
    requires count { length values.now ≡ length checked.now.params }
    requires range { All IsEntry values.now }
    requires inside { HoldsSome checked.now.pdom values.now }
    requires inputs { HaveInputs checked.now inputs.now values.now }
    ensures { TakesAlone (evaluated checked.now inputs.now values.now) result }
{
    let program = checked.program();
    let meanings = match evaluate(alloc, checked, values, inputs) {
        Ok(meanings) => meanings,
        Err(refusal) => return Err(evaluation_stop(alloc, program, refusal)),
    };
    match write_outputs(alloc, program, &meanings) {
        Ok(rows) => Ok(rows),
        Err(_) => Err(Stop::Memory),
    }
}

/// Evaluates the program over the tables that were read at these settings, and gives its output rows.
pub fn output_rows(
    alloc: Global,
    checked: &Checked,
    settings: &[Option<i128>],
    inputs: &Inputs,
) -> Result<List<u8>, Stop>
    requires set { AreSettings checked.now settings.now }
    requires read { AreRead checked.now settings.now inputs.now }
    ensures { TakesAlone (output_rows checked.now settings.now inputs.now) result }
{
    let program = checked.program();
    let _variables = program.variables();
    let values = params(alloc, program, settings)?;
    every_table(alloc, program, inputs)?;
    evaluated(alloc, checked, values.as_slice(), inputs)
}
