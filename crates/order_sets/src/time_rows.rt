//! The rows that give an instance's coordinates in time, cut by the kinds of the dimensions.

ghost use Rattle.std.specs.Prelude.{◌≡◌, ◌≤◌, length, IfOk};
ghost use Rattle.az_lin.specs.Substitution.{HasEntryRows, composed_map};
ghost use Rattle.order_sets.specs.Made.{MadeIf};
ghost use Rattle.order_sets.specs.Rows.{stamp_of, is_in_part};
ghost use Rattle.order_sets.specs.Timed.{IsTimed};
ghost use Rattle.order_sets.specs.Visits.{number_row, time_map, time_rows};
ghost use Rattle.target_map.specs.Stamps.{part, stamp};

use crate::Visit;
use crate::part::{Part, push_part};
use az_lin::{LinFault, Map, Row};
use std::alloc::{AllocError, Global};
use target_map::{Kind, Mapping};

/// The stamp of an instance: each row gives a coordinate over the columns of a formula.
#[derive(Debug, Drop)]
pub struct TimeRows {
    pub outer: Vec<Row>,
    pub band: Vec<Row>,
    pub processor: Vec<Row>,
    /// The band, the inner coordinates and the number of the statement.
    pub tile: Vec<Row>,
}

/// First `f`, then `g`; none where a row of this is out of range.
pub fn composed(alloc: Global, g: &Map, f: &Map) -> Result<Option<Map>, AllocError>
    requires rows { length f.now.rows ≡ g.now.width }
    requires narrow { g.now.width ≤ 64 }
    ensures { IfOk result (MadeIf (HasEntryRows (composed_map g.now f.now)) (λ map. map ≡ composed_map g.now f.now)) }
{
    match g.compose(alloc, f) {
        Ok(map) => Ok(Some(map)),
        Err(LinFault::Entry) => Ok(None),
        Err(LinFault::Memory) => Err(AllocError),
        Err(_) => unreachable!(),
    }
}

/// The row whose value is the number.
fn number_row(alloc: Global, width: usize, number: u32) -> Result<Row, AllocError>
    ensures { IfOk result (λ row. row ≡ number_row width number) }
{
    let coefs = vec![in alloc; 0; width]?;
    match Row::new(alloc, coefs.as_slice(), i128::from(number)) {
        Ok(row) => Ok(row),
        Err(LinFault::Memory) => Err(AllocError),
        Err(_) => unreachable!(),
    }
}

/// The rows that give the visit's coordinates in time, in the order of the kinds.
fn time_map(alloc: Global, mapping: &Mapping, visit: &Visit) -> Result<Option<Map>, AllocError>
    requires { IsTimed mapping.now visit.now }
    ensures { IfOk result (MadeIf (HasEntryRows (time_map mapping.now visit.now)) (λ map. map ≡ time_map mapping.now visit.now)) }
{
    match mapping.space_time(visit.variable) {
        Some(time) => composed(alloc, time, &visit.at),
        None => unreachable!(),
    }
}

/// Those of the rows that are of the part.
fn rows_in(alloc: Global, which: Part, kinds: &[Kind], rows: &[Row]) -> Result<Vec<Row>, AllocError>
    ensures { IfOk result (λ picked. picked.items ≡ part (is_in_part which) kinds.now rows.now) }
{
    let mut picked = Vec::new(alloc);
    push_part(&mut picked, alloc, which, kinds, rows)?;
    Ok(picked)
}

impl TimeRows {
    /// Cuts the rows, one for each kind; the last row gives the number of the statement.
    fn cut(alloc: Global, kinds: &[Kind], rows: &[Row], number: Row) -> Result<TimeRows, AllocError>
        ensures { IfOk result (λ cut. stamp_of cut ≡ stamp kinds.now number rows.now) }
    {
        let outer = rows_in(alloc, Part::Outer, kinds, rows)?;
        let band = rows_in(alloc, Part::Band, kinds, rows)?;
        let processor = rows_in(alloc, Part::Processor, kinds, rows)?;
        let mut tile = rows_in(alloc, Part::Band, kinds, rows)?;
        push_part(&mut tile, alloc, Part::Inner, kinds, rows)?;
        tile.push(number)?;
        Ok(TimeRows {
            outer,
            band,
            processor,
            tile,
        })
    }

    /// The stamp of a visit; none where one of its rows is out of range.
    pub fn of_visit(
        alloc: Global,
        mapping: &Mapping,
        visit: &Visit,
    ) -> Result<Option<TimeRows>, AllocError>
        requires { IsTimed mapping.now visit.now }
        ensures { IfOk result (MadeIf (HasEntryRows (time_map mapping.now visit.now)) (λ rows. stamp_of rows ≡ time_rows mapping.now visit.now)) }
    {
        let Some(map) = time_map(alloc, mapping, visit)? else {
            return Ok(None);
        };
        let number = number_row(alloc, map.width(), mapping.order(visit.variable))?;
        let rows = TimeRows::cut(alloc, mapping.kinds(), map.rows(), number)?;
        Ok(Some(rows))
    }
}
