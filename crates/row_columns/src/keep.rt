//! Maps that keep coordinates: all of them, those behind a map's own, or the first ones.

ghost use Rattle.std.specs.Prelude.{◌≡◌, ◌+◌, ◌<◌, ◌≤◌, ◌^◌, ◌++◌, length, take, drop, OnOk, IfOk, IfErr};
ghost use Rattle.az_lin.specs.Affine.{image_of};
ghost use Rattle.az_lin.specs.Columns.{unit_row, unit_rows, identity, extended, reading};
ghost use Rattle.az_lin.specs.Substitution.{Point};
ghost use Rattle.az_lin.specs.declared.fault.LinFault.TheVariants.{Memory};

use crate::widen::{Columns, widened_rows};
use crate::zeros::row_of;
use az_lin::{LinFault, List, Map, Row, TryCopy};
use std::alloc::Global;

/// The row whose value is the coordinate of the column.
pub fn unit_row(alloc: Global, width: usize, column: usize) -> Result<Row, LinFault>
    requires inside { column < width }
    ensures ok { IfOk result (λ row. row ≡ unit_row width column) }
    ensures cause { IfErr result (λ fault. fault ≡ Memory) }
{
    let mut coefs = vec![in alloc; 0; width]?;
    coefs[column] = 1;
    row_of(alloc, coefs.as_slice(), 0)
}

/// Appends the rows of some columns.
fn push_unit_rows(
    alloc: Global,
    rows: &mut Vec<Row>,
    width: usize,
    columns: &Columns,
) -> Result<(), LinFault>
    requires inside { columns.now.place + columns.now.count ≤ width }
    ensures ok { OnOk result (rows.new.items ≡ rows.old.items ++ unit_rows width columns.now.place columns.now.count) }
    ensures cause { IfErr result (λ fault. fault ≡ Memory) }
{
    'columns: for number in 0..columns.count {
        rows.push(unit_row(alloc, width, columns.place + number)?)?;
    }
    Ok(())
}

/// The map that changes nothing.
pub fn identity(alloc: Global, width: usize) -> Result<Map, LinFault>
    ensures ok { IfOk result (λ map. map ≡ identity width) }
    ensures meaning { (z : Point) → length z ≡ width → IfOk result (λ map. image_of map z ≡ z) }
    ensures cause { IfErr result (λ fault. fault ≡ Memory) }
{
    let mut rows = Vec::with_capacity(alloc, width)?;
    let all = Columns {
        place: 0,
        count: width,
    };
    push_unit_rows(alloc, &mut rows, width, &all)?;
    Ok(Map::new(width, List::from_vec(rows)))
}

/// The map with so many coordinates more, which it keeps behind its own image.
pub fn extended(alloc: Global, f: &Map, count: usize) -> Result<Map, LinFault>
    requires narrow { f.now.width + count < 2 ^ 32 }
    ensures ok { IfOk result (λ map. map ≡ extended count f.now) }
    ensures meaning { (z : Point) → length z ≡ f.now.width + count
        → IfOk result (λ map. image_of map z ≡ image_of f.now (take f.now.width z) ++ drop f.now.width z) }
    ensures cause { IfErr result (λ fault. fault ≡ Memory) }
{
    let width = f.width();
    let behind = Columns {
        place: width,
        count,
    };
    let mut rows = widened_rows(alloc, f.rows(), width, &behind)?.into_vec();
    push_unit_rows(alloc, &mut rows, width + count, &behind)?;
    Ok(Map::new(width + count, List::from_vec(rows)))
}

/// The map that gives the first coordinates, the parameters, and then its own image.
pub fn reading(alloc: Global, params: usize, f: &Map) -> Result<Map, LinFault>
    requires inside { params ≤ f.now.width }
    ensures ok { IfOk result (λ map. map ≡ reading params f.now) }
    ensures meaning { (z : Point) → params ≤ length z → IfOk result (λ map. image_of map z ≡ take params z ++ image_of f.now z) }
    ensures cause { IfErr result (λ fault. fault ≡ Memory) }
{
    let width = f.width();
    let mut rows = Vec::new(alloc);
    let first = Columns {
        place: 0,
        count: params,
    };
    push_unit_rows(alloc, &mut rows, width, &first)?;
    'rows: for row in f.rows() {
        rows.push(row.copy(alloc)?)?;
    }
    Ok(Map::new(width, List::from_vec(rows)))
}
