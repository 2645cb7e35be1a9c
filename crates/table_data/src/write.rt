//! The rows of a program's outputs.

ghost use Rattle.std.specs.Prelude.{◌≡◌, ◌++◌, ◌∷◌, [], ℤ, List, OnOk, IfOk, IfErr};
ghost use Rattle.std.specs.FinMap.{get};
ghost use Rattle.az_ast.specs.OutputRows.{row_of, fields, AreOutputRows};
ghost use Rattle.az_ast.specs.Tables.{Tables};
ghost use Rattle.table_data.specs.Written.{TablesMean, rows_at, lines_of, role_lines, output_lines};
ghost use Rattle.table_data.specs.declared.fault.TableFault.TheVariants.{Memory};

use crate::TableFault;
use az_ast::{Program, Role, Table, Values, Variable};
use az_lin::List;
use itoa::Buffer;
use std::alloc::{AllocError, Global};

/// Appends a comma and the number.
#[tactic(auto, using(crate::proofs::WrittenRows::field_text))]
fn push_field(out: &mut Vec<u8>, buffer: &mut Buffer, number: &i128) -> Result<(), AllocError>
    ensures { OnOk result (out.new.items ≡ out.old.items ++ fields (number.now ∷ [])) }
{
    out.extend_from_slice(b",")?;
    out.extend_from_slice(buffer.format(*number).as_bytes())
}

/// Appends the line of one row.
#[tactic(auto, using(crate::proofs::WrittenRows::index_more, crate::proofs::WrittenRows::line_end))]
fn push_row(
    out: &mut Vec<u8>,
    buffer: &mut Buffer,
    name: &str,
    point: &[i128],
    value: i64,
) -> Result<(), AllocError>
    ensures { OnOk result (out.new.items ≡ out.old.items ++ row_of name.now point.now value) }
{
    out.extend_from_slice(name.as_bytes())?;
    'indices: for index in point {
        push_field(out, buffer, index)?;
    }
    push_field(out, buffer, &i128::from(value))?;
    out.extend_from_slice(b"\n")
}

/// Appends the lines of a table.
#[tactic(auto, using(crate::proofs::WrittenRows::row_more))]
fn push_table(out: &mut Vec<u8>, name: &str, table: &Table) -> Result<(), AllocError>
    ensures { OnOk result (out.new.items ≡ out.old.items ++ lines_of name.now table.now) }
{
    let mut buffer = Buffer::new();
    'rows: for row in table.rows() {
        push_row(out, &mut buffer, name, row.0.as_slice(), row.1)?;
    }
    Ok(())
}

/// Appends the lines of a variable, if it is an output.
fn push_variable(
    out: &mut Vec<u8>,
    variable: &Variable,
    values: &Values,
    x: u32,
) -> Result<(), AllocError>
    ensures { OnOk result (out.new.items ≡ out.old.items ++ role_lines variable.now.role (lines_of variable.now.name (rows_at (get values.now x)))) }
{
    match variable.role {
        Role::Input => Ok(()),
        Role::Output => match values.table(x) {
            Some(table) => push_table(out, variable.name.as_str(), table),
            None => Ok(()),
        },
        Role::Local => Ok(()),
    }
}

/// The lines of the outputs: for each output in order of declaration and each row of its table
/// `NAME,index,..,value` and a line feed.
#[tactic(auto, using(crate::proofs::WrittenRows::variable_more))]
pub fn write_outputs(alloc: Global, p: &Program, values: &Values) -> Result<List<u8>, TableFault>
    ensures text { IfOk result (λ text. text ≡ output_lines values.now p.now.variables 0) }
    ensures rows { IfOk result (λ text. (inputs : Tables) (params : List ℤ) → TablesMean p.now inputs params values.now → AreOutputRows p.now inputs params text) }
    ensures cause { IfErr result (λ fault. fault ≡ Memory) }
{
    let mut out = Vec::new(alloc);
    let variables = p.variables();
    'variables: for x in 0..variables.len() {
        push_variable(&mut out, &variables[x], values, x as u32)?;
    }
    Ok(List::from_vec(out))
}
