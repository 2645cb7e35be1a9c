//! The stored rows of a system, as the first stage takes them.

ghost use Rattle.std.specs.Prelude.{OnOk, All};
ghost use Rattle.az_lin.specs.Combination.{HasWideEntries};
ghost use Rattle.farkas_find.specs.Stages.{given_rows};
ghost use Rattle.farkas_find.specs.Inner.Nexts.{GivenAnswers};

use crate::FindFault;
use crate::fault::of_memory;
use crate::first_rows::{GivenRow, numbered_rows};
use crate::numbered::Numbered;
use az_lin::{ExactRow, Row};
use std::alloc::Global;

impl GivenRow for Row {
    ghost affine = { λ row. row };

    ghost valid = { λ row. Unit {0} };

    fn exact(&self, alloc: Global) -> Result<ExactRow, FindFault> {
        of_memory(ExactRow::from_row(alloc, self))
    }
}

/// The rows, numbered from 0, if a stage may have so many.
pub(crate) fn stored_rows(alloc: Global, rows: &[Row]) -> Result<Vec<Numbered>, FindFault>
    ensures answer { GivenAnswers (given_rows rows.now) result }
    ensures range { OnOk result (All HasWideEntries rows.now) }
{
    numbered_rows(alloc, rows)
}
