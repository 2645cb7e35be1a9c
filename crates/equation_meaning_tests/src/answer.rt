//! What the evaluation of a text answers, as text.

use crate::evaluated;
use alphabets_read::read_program;
use az_ast::{Checked, Program, Table, Values};
use az_lin::Limit;
use domain_check::certify;
use equation_meaning::{EvalRefusal, PointName};
use std::alloc::{AllocError, Global};
use std::test::Fail;

fn push(alloc: Global, said: &mut String, mark: &str, number: i128) -> Result<(), AllocError> {
    let shown = format!(in alloc; "{mark}{number}")?;
    said.push_str(shown.as_str())
}

fn push_point(alloc: Global, said: &mut String, point: &[i128]) -> Result<(), AllocError> {
    let mut mark = "";
    for number in point {
        push(alloc, said, mark, *number)?;
        mark = ",";
    }
    Ok(())
}

/// The name, and the rows as `point=value`.
fn push_table(
    alloc: Global,
    said: &mut String,
    name: &str,
    table: &Table,
) -> Result<(), AllocError> {
    said.push_str(name)?;
    for row in table.rows() {
        said.push_str(" ")?;
        push_point(alloc, said, row.0.as_slice())?;
        push(alloc, said, "=", i128::from(row.1))?;
    }
    said.push_str(";")
}

/// The tables in order of declaration.
fn tables(alloc: Global, program: &Program, values: &Values) -> Result<String, AllocError> {
    let mut said = String::new(alloc);
    let mut x: u32 = 0;
    for variable in program.variables() {
        if let Some(table) = values.table(x) {
            push_table(alloc, &mut said, variable.name.as_str(), table)?;
        }
        x = x.saturating_add(1);
    }
    Ok(said)
}

fn chain(alloc: Global, names: &[PointName]) -> Result<String, AllocError> {
    let mut said = String::from_str(alloc, "Cycle")?;
    for name in names {
        push(alloc, &mut said, " ", i128::from(name.variable))?;
        said.push_str("[")?;
        push_point(alloc, &mut said, name.point.as_slice())?;
        said.push_str("]")?;
    }
    Ok(said)
}

fn cause(alloc: Global, refusal: &EvalRefusal) -> Result<String, AllocError> {
    match refusal {
        EvalRefusal::Cycle(names) => chain(alloc, names.as_slice()),
        EvalRefusal::Overflow => String::from_str(alloc, "Overflow"),
        EvalRefusal::Entry => String::from_str(alloc, "Entry"),
        EvalRefusal::Limit(Limit::BoxPoints) => String::from_str(alloc, "Box"),
        EvalRefusal::Limit(Limit::Points) => String::from_str(alloc, "Points"),
        EvalRefusal::Limit(Limit::Coordinate) => String::from_str(alloc, "Coordinate"),
        EvalRefusal::Limit(_) => String::from_str(alloc, "Limit"),
        EvalRefusal::Memory => Err(AllocError),
    }
}

/// The tables or the refusal.
fn shown(
    alloc: Global,
    checked: &Checked,
    params: &[i128],
    numbers: &[i64],
) -> Result<String, AllocError> {
    match evaluated(alloc, checked, params, numbers) {
        Some(Ok(values)) => tables(alloc, checked.program(), &values),
        Some(Err(refusal)) => cause(alloc, &refusal),
        None => String::from_str(alloc, "Params"),
    }
}

/// What the evaluation answers; `params` in order, `numbers` the values of the inputs.
pub(crate) fn answer(
    alloc: Global,
    text: &str,
    params: &[i128],
    numbers: &[i64],
) -> Result<String, Fail> {
    let Ok(program) = read_program(alloc, text.as_bytes()) else {
        return Ok(String::from_str(alloc, "unread")?);
    };
    match certify(alloc, program) {
        Ok(checked) => Ok(shown(alloc, &checked, params, numbers)?),
        Err(_) => Ok(String::from_str(alloc, "uncertified")?),
    }
}
