//! The table of an input from the text of a file.

ghost use Rattle.std.specs.Prelude.{◌≡◌, ◌<◌, ◌≤◌, All, length};
ghost use Rattle.az_lin.specs.Affine.{IsEntry};
ghost use Rattle.data_commands.specs.Tables.{table_refusal, table_in, table_of};
ghost use Rattle.session_state.specs.Settings.{AreSettings};
ghost use Rattle.session_state.specs.Steps.{TakesAlone, IsStopFor};

use crate::parameters::params;
use az_ast::{Program, Reason, Table};
use az_lin::Domain;
use session_state::{Refusal, Spot, Stop, name};
use std::alloc::Global;
use table_data::{TableFault, read_table};

/// Why a text that is no table stops a command.
fn table_stop(alloc: Global, input: &str, fault: TableFault) -> Stop
    ensures { IsStopFor (table_refusal input.now fault) result }
{
    match fault {
        TableFault::BadRow { row, kind } => match name(alloc, input) {
            Ok(input) => Stop::Refused(Refusal::BadTable(input, row, kind)),
            Err(stop) => stop,
        },
        TableFault::Overflow => Stop::Refused(Refusal::Overflow(Spot::Scan)),
        TableFault::Entry => Stop::Refused(Refusal::Command(Reason::Entry)),
        TableFault::Limit(limit) => Stop::Refused(Refusal::Limited(limit)),
        TableFault::Memory => Stop::Memory,
    }
}

fn table_in(
    alloc: Global,
    input: &str,
    domain: &Domain,
    values: &[i128],
    text: &[u8],
) -> Result<Table, Stop>
    requires inside { length values.now ≤ domain.now.width }
    requires narrow { domain.now.width ≤ 64 }
    requires range { All IsEntry values.now }
    ensures { TakesAlone (table_in input.now domain.now values.now text.now) result }
{
    match read_table(alloc, domain, values, text) {
        Ok(table) => Ok(table),
        Err(fault) => Err(table_stop(alloc, input, fault)),
    }
}

/// The table of the input with this number and name.
pub(crate) fn table_of(
    alloc: Global,
    program: &Program,
    settings: &[Option<i128>],
    number: usize,
    input: &str,
    text: &[u8],
) -> Result<Table, Stop>
    requires set { AreSettings program.now settings.now }
    requires there { number < length program.now.variables }
    ensures { TakesAlone (table_of program.now settings.now number input.now text.now) result }
{
    let variable = &program.variables()[number];
    let values = params(alloc, program, settings)?;
    table_in(alloc, input, &variable.domain, values.as_slice(), text)
}
