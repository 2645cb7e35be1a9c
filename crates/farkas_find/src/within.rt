//! The pairs that a stage combines, if they are few enough.

ghost use Rattle.std.specs.Prelude.{◌≡◌, ◌<◌, IfOk};
ghost use Rattle.farkas_find.specs.Combining.{HaveWidth, all_pairs, pairs_with};
ghost use Rattle.farkas_find.specs.Stages.{HasFew, pairs_for};
ghost use Rattle.farkas_find.specs.Inner.Nexts.{IsWithin};

use crate::choice::{Choice, Pair};
use crate::counting::count_all_pairs;
use crate::numbered::Numbered;
use crate::pairs::{all_pairs, pairs_with};
use std::alloc::{AllocError, Global};

fn all_pairs_within(
    alloc: Global,
    column: usize,
    rows: &[Numbered],
    most: usize,
    width: usize,
) -> Result<Option<Vec<Pair>>, AllocError>
    requires inside { column < width }
    requires widths { HaveWidth width rows.now }
    requires few { HasFew rows.now }
    ensures { IfOk result (λ got. IsWithin most (all_pairs column rows.now) got) }
{
    if count_all_pairs(column, rows, width) > most {
        return Ok(None);
    }
    Ok(Some(all_pairs(alloc, column, rows, width)?))
}

fn pairs_with_within(
    alloc: Global,
    column: usize,
    chosen: &Pair,
    rows: &[Numbered],
    most: usize,
    width: usize,
) -> Result<Option<Vec<Pair>>, AllocError>
    requires inside { column < width }
    requires widths { HaveWidth width rows.now }
    ensures { IfOk result (λ got. IsWithin most (pairs_with column chosen.now rows.now) got) }
{
    let pairs = pairs_with(alloc, column, chosen, rows, width)?;
    if pairs.len() > most {
        return Ok(None);
    }
    Ok(Some(pairs))
}

/// `None` exactly where there are more pairs than `most`.
pub(crate) fn pairs_within(
    alloc: Global,
    choice: &Choice,
    rows: &[Numbered],
    most: usize,
    width: usize,
) -> Result<Option<Vec<Pair>>, AllocError>
    requires inside { choice.now.column < width }
    requires widths { HaveWidth width rows.now }
    requires few { HasFew rows.now }
    ensures { IfOk result (λ got. IsWithin most (pairs_for choice.now rows.now) got) }
{
    match &choice.pair {
        Some(chosen) => pairs_with_within(alloc, choice.column, chosen, rows, most, width),
        None => all_pairs_within(alloc, choice.column, rows, most, width),
    }
}
