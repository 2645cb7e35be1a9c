//! The rows of the next stage.

ghost use Rattle.std.specs.Prelude.{◌≡◌, ◌<◌, ◌≤◌, ◌+◌, ◌^◌, ◌++◌, length, map, IfOk, OnOk};
ghost use Rattle.farkas_find.specs.Combining.{HaveWidth, step_at};
ghost use Rattle.farkas_find.specs.Stages.{HasFew, pairs_for, rows_with};
ghost use Rattle.farkas_find.specs.Inner.Nexts.{IsChoice, NextAnswers};

use crate::FindFault;
use crate::choice::Choice;
use crate::counting::count_without;
use crate::fault::of_memory;
use crate::made::made;
use crate::numbered::Numbered;
use crate::parting::part;
use crate::within::pairs_within;
use az_lin::{Limit, Step};
use std::alloc::Global;

/// The most rows that a stage may have before it is tidied.
pub(crate) const MOST_ROWS: usize = 20_000;

/// The rows of the next stage, and the rows that had the column.
#[derive(Debug, Drop)]
pub(crate) struct NextRows {
    pub(crate) rows: Vec<Numbered>,
    pub(crate) used: Vec<Numbered>,
}

/// Eliminates a column from tidied rows. The numbers of new rows go on from `next`, and their steps
/// are added to `steps`.
pub(crate) fn next_rows(
    alloc: Global,
    stage: u32,
    choice: &Choice,
    rows: Vec<Numbered>,
    next: u32,
    steps: &mut Vec<Step>,
    width: usize,
) -> Result<NextRows, FindFault>
    requires widths { HaveWidth width rows.items }
    requires few { HasFew rows.items }
    requires choice { IsChoice width rows.items choice.now }
    requires numbers { next + 20000 < 2 ^ 32 }
    ensures result { NextAnswers stage choice.now next rows.items result }
    ensures steps { OnOk result (steps.new.items ≡ steps.old.items ++ map (step_at choice.now.column rows.items) (pairs_for choice.now rows.items)) }
{
    let most = MOST_ROWS - count_without(choice.column, rows.as_slice(), width);
    let Some(pairs) = pairs_within(alloc, choice, rows.as_slice(), most, width)? else {
        return Err(FindFault::Limit(Limit::Rows));
    };
    let column = choice.column;
    let Some(mut made) = of_memory(made(
        alloc,
        column,
        rows.as_slice(),
        pairs.as_slice(),
        next,
        steps,
        width,
    ))?
    else {
        return Err(FindFault::Overflow(stage));
    };
    let parted = part(alloc, column, rows, width)?;
    let mut rows = parted.kept;
    rows.append(&mut made)?;
    Ok(NextRows {
        rows,
        used: parted.used,
    })
}
