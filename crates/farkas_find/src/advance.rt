//! From one stage to the next.

ghost use Rattle.std.specs.Prelude.{◌≡◌, ◌<◌, ◌≤◌, ◌+◌, ◌^◌, IfOk, MatchOption};
ghost use Rattle.farkas_find.specs.Combining.{HaveWidth};
ghost use Rattle.farkas_find.specs.Choosing.{free_columns};
ghost use Rattle.farkas_find.specs.Stages.{HasFew, tidied_stage};
ghost use Rattle.farkas_find.specs.Inner.Nexts.{IsChoice, WithoutAnswers, ChosenAnswers, AdvanceAnswers};

use crate::FindFault;
use crate::choice::Choice;
use crate::choose::choice_of;
use crate::fault::of_memory;
use crate::next::next_rows;
use crate::stage::{AfterTidying, tidied};
use crate::trail::{Eliminated, Ended, Finished, Stage};
use az_lin::List;
use std::alloc::Global;

/// What comes after a stage.
#[derive(Debug, Drop)]
pub(crate) enum Advanced {
    Last(Finished),
    Next(Stage),
}

impl Stage {
    /// The stage after this tidied one.
    fn without_column(
        self,
        alloc: Global,
        number: u32,
        choice: &Choice,
        width: usize,
    ) -> Result<Stage, FindFault>
        requires widths { HaveWidth width self.rows }
        requires few { HasFew self.rows }
        requires choice { IsChoice width self.rows choice.now }
        requires numbers { self.next + 20000 < 2 ^ 32 }
        ensures { WithoutAnswers number choice.now self result }
    {
        let mut steps = self.steps.into_vec();
        let before = steps.len();
        let rows = self.rows.into_vec();
        let made = next_rows(alloc, number, choice, rows, self.next, &mut steps, width)?;
        let next = self.next + (steps.len() - before) as u32;
        let mut trail = self.trail;
        of_memory(trail.push(Eliminated {
            column: choice.column,
            rows: List::from_vec(made.used),
        }))?;
        Ok(Stage {
            rows: List::from_vec(made.rows),
            next,
            steps: List::from_vec(steps),
            trail,
        })
    }

    /// Goes on from this tidied stage, by a column among all but `kept`.
    fn choose_column(
        self,
        alloc: Global,
        number: u32,
        kept: Option<usize>,
        width: usize,
    ) -> Result<Advanced, FindFault>
        requires widths { HaveWidth width self.rows }
        requires few { HasFew self.rows }
        requires numbers { self.next + 20000 < 2 ^ 32 }
        ensures { ChosenAnswers (free_columns kept width) self number result }
    {
        match choice_of(alloc, kept, self.rows.as_slice(), width)? {
            Some(choice) => {
                let next = self.without_column(alloc, number, &choice, width)?;
                Ok(Advanced::Next(next))
            }
            None => Ok(Advanced::Last(Finished {
                ended: Ended::Left(self.rows),
                steps: self.steps,
                trail: self.trail,
            })),
        }
    }

    /// Tidies the rows, and goes on by a column among all but `kept`.
    pub(crate) fn advance(
        self,
        alloc: Global,
        number: u32,
        kept: Option<usize>,
        width: usize,
    ) -> Result<Advanced, FindFault>
        requires widths { HaveWidth width self.rows }
        requires few { HasFew self.rows }
        requires numbers { self.next + 40000 < 2 ^ 32 }
        ensures { AdvanceAnswers (free_columns kept width) self number result }
    {
        let Stage {
            rows,
            next,
            steps,
            trail,
        } = self;
        let mut steps = steps.into_vec();
        let before = steps.len();
        let found = tidied(alloc, rows.into_vec(), next, &mut steps)?;
        let next = next + (steps.len() - before) as u32;
        let steps = List::from_vec(steps);
        match found {
            AfterTidying::Refuted(number) => Ok(Advanced::Last(Finished {
                ended: Ended::Refuted(number),
                steps,
                trail,
            })),
            AfterTidying::Kept(rows) => {
                let rows = List::from_vec(rows);
                let stage = Stage {
                    rows,
                    next,
                    steps,
                    trail,
                };
                stage.choose_column(alloc, number, kept, width)
            }
        }
    }
}
