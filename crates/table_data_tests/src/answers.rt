//! Answers as short texts: the rows in order, each with a blank behind it, or the fault.

ghost use Rattle.std.specs.Prelude.{◌≤◌, ◌↔◌, length, All, IsTrue};
ghost use Rattle.az_lin.specs.Affine.{IsEntry};

use az_ast::{Program, Table};
use az_lin::Limit;
use std::alloc::{AllocError, Global};
use table_data::{RowKind, TableFault, read_table};

/// The greatest magnitude of a parameter.
const MOST_ENTRY: i128 = (1 << 60) - 1;

fn push_point(text: &mut String, point: &[i128], mark: &str) -> Result<(), AllocError> {
    for index in point {
        write!(text, "{index}{mark}")?;
    }
    Ok(())
}

fn rows_text(alloc: Global, table: &Table) -> Result<String, AllocError> {
    let mut text = String::new(alloc);
    for (point, value) in table.rows() {
        push_point(&mut text, point.as_slice(), ",")?;
        write!(text, "{value} ")?;
    }
    Ok(text)
}

fn missing(alloc: Global, row: u64, point: &[i128]) -> Result<String, AllocError> {
    let mut text = format!(in alloc; "{row} Missing")?;
    let mut mark = " ";
    for index in point {
        write!(text, "{mark}{index}")?;
        mark = ",";
    }
    Ok(text)
}

fn row_text(alloc: Global, row: u64, kind: &RowKind) -> Result<String, AllocError> {
    match kind {
        RowKind::Fields => format!(in alloc; "{row} Fields"),
        RowKind::Number => format!(in alloc; "{row} Number"),
        RowKind::Outside => format!(in alloc; "{row} Outside"),
        RowKind::Twice => format!(in alloc; "{row} Twice"),
        RowKind::Missing(point) => missing(alloc, row, point.as_slice()),
    }
}

fn shown(alloc: Global, answer: &Result<Table, TableFault>) -> Result<String, AllocError> {
    match answer {
        Ok(table) => rows_text(alloc, table),
        Err(TableFault::BadRow { row, kind }) => row_text(alloc, *row, kind),
        Err(TableFault::Overflow) => String::from_str(alloc, "Overflow"),
        Err(TableFault::Entry) => String::from_str(alloc, "Entry"),
        Err(TableFault::Limit(Limit::Coordinate)) => String::from_str(alloc, "Coordinate"),
        Err(TableFault::Limit(Limit::BoxPoints)) => String::from_str(alloc, "BoxPoints"),
        Err(TableFault::Limit(_)) => String::from_str(alloc, "Limit"),
        Err(TableFault::Memory) => String::from_str(alloc, "Memory"),
    }
}

/// Whether these may be the values of a domain's first columns.
fn may_be_params(params: &[i128], width: usize) -> bool
    ensures { IsTrue result ↔ ((length params.now ≤ width) × (width ≤ 64) × All IsEntry params.now) }
{
    params.len() <= width
        && width <= 64
        && params
            .iter()
            .all(|param| -MOST_ENTRY <= *param && *param <= MOST_ENTRY)
}

/// The table that the text says over the domain of the program's variable of this number.
pub(crate) fn table(
    alloc: Global,
    program: &Program,
    x: usize,
    params: &[i128],
    text: &[u8],
) -> Result<Table, TableFault> {
    let Some(variable) = program.variables().get(x) else {
        return Err(TableFault::Memory);
    };
    if !may_be_params(params, variable.domain.width()) {
        return Err(TableFault::Memory);
    }
    read_table(alloc, &variable.domain, params, text)
}

/// What the text says over the domain of the program's first variable.
pub(crate) fn answer(
    alloc: Global,
    program: &Program,
    params: &[i128],
    text: &[u8],
) -> Result<String, AllocError> {
    shown(alloc, &table(alloc, program, 0, params, text))
}
