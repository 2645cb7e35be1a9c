//! Instances with all rows that formulas take.

ghost use Rattle.std.specs.Prelude.{◌≡◌, IfOk};
ghost use Rattle.az_lin.specs.Substitution.{HasEntryRows};
ghost use Rattle.life_sets.specs.Cells.{cell_map};
ghost use Rattle.life_sets.specs.Stored.{IsStored, FitsVisit, IsInstance};
ghost use Rattle.order_sets.specs.Made.{MadeIf};

use az_lin::Map;
use order_sets::{TimeRows, Visit, composed};
use std::alloc::{AllocError, Global};
use target_map::Mapping;

/// A visit, with the rows of its coordinates in time and of its cell.
#[derive(Debug, Drop)]
pub(crate) struct Instance {
    pub(crate) visit: Visit,
    pub(crate) time: TimeRows,
    pub(crate) cell: Map,
}

/// The rows of the visit's cell; none where one is out of range.
fn cell_map(alloc: Global, mapping: &Mapping, visit: &Visit) -> Result<Option<Map>, AllocError>
    requires { IsStored mapping.now visit.now }
    ensures { IfOk result (MadeIf (HasEntryRows (cell_map mapping.now visit.now)) (λ map. map ≡ cell_map mapping.now visit.now)) }
{
    match mapping.storage(visit.variable) {
        Some(storage) => composed(alloc, &storage.map, &visit.at),
        None => unreachable!(),
    }
}

impl Instance {
    /// None where a row is out of range.
    pub(crate) fn new(
        alloc: Global,
        mapping: &Mapping,
        visit: Visit,
    ) -> Result<Option<Instance>, AllocError>
        requires { IsStored mapping.now visit }
        ensures { IfOk result (MadeIf (FitsVisit mapping.now visit) (IsInstance mapping.now visit)) }
    {
        let Some(time) = TimeRows::of_visit(alloc, mapping, &visit)? else {
            return Ok(None);
        };
        let Some(cell) = cell_map(alloc, mapping, &visit)? else {
            return Ok(None);
        };
        Ok(Some(Instance { visit, time, cell }))
    }
}
