//! Single stages over numbered rows.

ghost use Rattle.std.specs.Prelude.{◌≡◌, ◌<◌, ◌+◌, ◌^◌};
ghost use Rattle.farkas_find.specs.Combining.{HaveWidth};
ghost use Rattle.farkas_find.specs.Stages.{HasFew};
ghost use Rattle.farkas_find.specs.Answers.{TidyAnswers, DropAnswers};
ghost use Rattle.farkas_find.specs.Inner.Nexts.{DroppedAnswers};

use crate::choose::choice_in;
use crate::next::next_rows;
use crate::numbered::Numbered;
use crate::stage::{AfterTidying, tidied};
use crate::wide::unnumbered;
use crate::{FindFault, Left};
use std::alloc::Global;

pub(crate) fn tidy_given(alloc: Global, given: Vec<Numbered>) -> Result<Left, FindFault>
    requires few { HasFew given.items }
    ensures { TidyAnswers given.items result }
{
    let next = given.len() as u32;
    let mut steps = Vec::new(alloc);
    match tidied(alloc, given, next, &mut steps)? {
        AfterTidying::Refuted(_) => Ok(Left::Contradiction),
        AfterTidying::Kept(left) => Ok(Left::Rows(unnumbered(alloc, left.as_slice())?)),
    }
}

/// The rows of the next stage, from tidied rows.
fn drop_tidied(
    alloc: Global,
    rows: Vec<Numbered>,
    next: u32,
    column: usize,
    width: usize,
) -> Result<Left, FindFault>
    requires inside { column < width }
    requires widths { HaveWidth width rows.items }
    requires few { HasFew rows.items }
    requires numbers { next + 20000 < 2 ^ 32 }
    ensures { DroppedAnswers column next rows.items result }
{
    let choice = choice_in(alloc, column, rows.as_slice(), width)?;
    let mut steps = Vec::new(alloc);
    let made = next_rows(alloc, 0, &choice, rows, next, &mut steps, width)?;
    Ok(Left::Rows(unnumbered(alloc, made.rows.as_slice())?))
}

pub(crate) fn drop_given(
    alloc: Global,
    given: Vec<Numbered>,
    column: usize,
    width: usize,
) -> Result<Left, FindFault>
    requires inside { column < width }
    requires widths { HaveWidth width given.items }
    requires few { HasFew given.items }
    ensures { DropAnswers column given.items result }
{
    let next = given.len() as u32;
    let mut steps = Vec::new(alloc);
    match tidied(alloc, given, next, &mut steps)? {
        AfterTidying::Refuted(_) => Ok(Left::Contradiction),
        AfterTidying::Kept(rows) => {
            drop_tidied(alloc, rows, next + steps.len() as u32, column, width)
        }
    }
}
