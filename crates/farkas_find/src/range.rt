//! What the stages leave of one column.

ghost use Rattle.std.specs.Prelude.{◌≡◌, ◌≤◌, Some};
ghost use Rattle.farkas_find.specs.Combining.{HaveWidth};
ghost use Rattle.farkas_find.specs.Choosing.{free_columns};
ghost use Rattle.farkas_find.specs.Stages.{HasFew};
ghost use Rattle.farkas_find.specs.Answers.{RangeAnswers};
ghost use Rattle.farkas_find.specs.Inner.Nexts.{EndAnswers};

use crate::numbered::Numbered;
use crate::run::run_stages;
use crate::trail::Ended;
use crate::wide::unnumbered;
use crate::{FindFault, Left};
use std::alloc::Global;

fn left_of(alloc: Global, ended: Ended) -> Result<Left, FindFault>
    ensures { EndAnswers ended result }
{
    match ended {
        Ended::Refuted(_) => Ok(Left::Contradiction),
        Ended::Left(rows) => Ok(Left::Rows(unnumbered(alloc, rows.as_slice())?)),
    }
}

pub(crate) fn range_given(
    alloc: Global,
    given: Vec<Numbered>,
    column: usize,
    width: usize,
) -> Result<Left, FindFault>
    requires widths { HaveWidth width given.items }
    requires few { HasFew given.items }
    requires narrow { width ≤ 4096 }
    ensures { RangeAnswers (free_columns (Some column) width) given.items result }
{
    let finished = run_stages(alloc, Some(column), given, width)?;
    left_of(alloc, finished.ended)
}
