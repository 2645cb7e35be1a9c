//! Moving the rows with a column apart from those without it.

ghost use Rattle.std.specs.Prelude.{◌≡◌, ◌<◌, ◌++◌, IfOk};
ghost use Rattle.farkas_find.specs.Combining.{HaveWidth};
ghost use Rattle.farkas_find.specs.Stages.{rows_without, rows_with};

use crate::numbered::Numbered;
use std::alloc::{AllocError, Global};

#[derive(Debug, Drop)]
pub(crate) struct Parted {
    /// The rows without the column.
    pub(crate) kept: Vec<Numbered>,
    /// Those with it.
    pub(crate) used: Vec<Numbered>,
}

#[tactic(auto, unfolding(crate::specs::Stages::rows_without, crate::specs::Stages::rows_with))]
pub(crate) fn part(
    alloc: Global,
    column: usize,
    rows: Vec<Numbered>,
    width: usize,
) -> Result<Parted, AllocError>
    requires inside { column < width }
    requires widths { HaveWidth width rows.items }
    ensures kept { IfOk result (λ parted. parted.kept.items ≡ rows_without column rows.items) }
    ensures used { IfOk result (λ parted. parted.used.items ≡ rows_with column rows.items) }
{
    let mut kept = Vec::new(alloc);
    let mut used = Vec::new(alloc);
    'rows: for it in rows.into_iter() {
        if it.has(column) {
            used.push(it)?;
        } else {
            kept.push(it)?;
        }
    }
    Ok(Parted { kept, used })
}
