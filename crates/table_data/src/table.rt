//! The table of points with their values.

ghost use Rattle.std.specs.Prelude.{◌≡◌, length};
ghost use Rattle.az_ast.specs.Points.{IsIncreasing};
ghost use Rattle.table_data.specs.Inner.Answers.{Completes};

use crate::{RowKind, TableFault};
use az_ast::Table;
use az_lin::List;
use std::alloc::Global;

/// The table, if each point has a value; else the first point without one.
pub(crate) fn table_of(
    alloc: Global,
    points: List<List<i128>>,
    values: &[Option<i64>],
) -> Result<Table, TableFault>
    requires increasing { IsIncreasing points }
    requires lengths { length values.now ≡ length points }
    ensures { Completes points values.now result }
{
    let mut rows = Vec::with_capacity(alloc, values.len())?;
    let mut points = points.into_vec().into_iter();
    'values: for value in values {
        let Some(point) = points.next() else {
            unreachable!();
        };
        match value {
            Some(value) => rows.push((point, *value))?,
            None => {
                return Err(TableFault::BadRow {
                    row: 0,
                    kind: RowKind::Missing(point),
                });
            }
        }
    }
    Ok(Table::new(List::from_vec(rows)))
}
