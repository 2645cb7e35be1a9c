//! The table of a text.

ghost use Rattle.std.specs.Prelude.{◌≤◌, ℕ, length, All, Ok, Err};
ghost use Rattle.az_lin.specs.Affine.{IsEntry};
ghost use Rattle.az_ast.specs.Tables.{Rows};
ghost use Rattle.table_data.specs.Answers.{TableAnswers, IsOrMemory};
ghost use Rattle.table_data.specs.declared.fault.RowKind.{RowKind as Kind};
ghost use Rattle.table_data.specs.declared.fault.TableFault.TheVariants.{BadRow};

use crate::TableFault;
use crate::filling::filled;
use crate::table::table_of;
use az_ast::Table;
use az_lin::Domain;
use loop_scan::box_points;
use std::alloc::Global;

/// The table that the text says over the members of `d` at the parameters, which are its first
/// columns. The text has a record for each member, of its indices and then the value.
pub fn read_table(
    alloc: Global,
    d: &Domain,
    params: &[i128],
    text: &[u8],
) -> Result<Table, TableFault>
    requires inside { length params.now ≤ d.now.width }
    requires narrow { d.now.width ≤ 64 }
    requires range { All IsEntry params.now }
    ensures answer { TableAnswers d.now params.now text.now result }
    // No other table and no other bad row fits the text.
    ensures only { (table : Rows) → TableAnswers d.now params.now text.now (Ok table) → IsOrMemory (Ok table) result }
    ensures first { (row : ℕ) (kind : Kind) → TableAnswers d.now params.now text.now (Err (BadRow row kind)) → IsOrMemory (Err (BadRow row kind)) result }
{
    let points = box_points(alloc, d, params)?;
    let values = filled(alloc, points.as_slice(), d.width() - params.len(), text)?;
    table_of(alloc, points, values.as_slice())
}
