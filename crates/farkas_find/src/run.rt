//! The stages, from the given rows to the last.

ghost use Rattle.std.specs.Prelude.{◌≡◌, ◌≤◌, ◌<◌};
ghost use Rattle.farkas_find.specs.Combining.{HaveWidth};
ghost use Rattle.farkas_find.specs.Choosing.{free_columns};
ghost use Rattle.farkas_find.specs.Stages.{HasFew};
ghost use Rattle.farkas_find.specs.Inner.Nexts.{RunAnswers};

use crate::FindFault;
use crate::advance::Advanced;
use crate::numbered::Numbered;
use crate::trail::{Finished, Stage};
use az_lin::List;
use std::alloc::Global;

/// Goes through the stages of rows that are numbered from 0, with every column but `kept`.
pub(crate) fn run_stages(
    alloc: Global,
    kept: Option<usize>,
    rows: Vec<Numbered>,
    width: usize,
) -> Result<Finished, FindFault>
    requires widths { HaveWidth width rows.items }
    requires few { HasFew rows.items }
    requires narrow { width ≤ 4096 }
    ensures { RunAnswers (free_columns kept width) rows.items result }
{
    let next = rows.len() as u32;
    let mut stage = Stage {
        rows: List::from_vec(rows),
        next,
        steps: List::new(alloc),
        trail: List::new(alloc),
    };
    let mut number: u32 = 0;
    'stages: loop {
        match stage.advance(alloc, number, kept, width)? {
            Advanced::Last(finished) => return Ok(finished),
            Advanced::Next(next) => stage = next,
        }
        number += 1;
    }
}
