//! The tasks of a script, one after another.

ghost use Rattle.std.specs.Prelude.{◌≤◌, ◌+◌, None};
ghost use Rattle.alphaz_cli.specs.Tasks.{tasks};
ghost use Rattle.command_listing.specs.Listing.{Runs};
ghost use Rattle.command_listing.specs.Turns.{EndsTurn};
ghost use Rattle.session_state.specs.Session.{IsSound};

use crate::task::{Task, answer, carry_out, word};
use az_desk::Desk;
use command_listing::end_turn;
use formula_refute::CaseGate;
use session_state::{Session, Stop};
use std::alloc::Global;
use std::thread::Threads;

/// Carries a task out and says what is said of it.
fn turn<R: Threads + Sync, D: Desk, G: CaseGate + Sync>(
    rt: &R,
    alloc: Global,
    desk: &mut D,
    number: usize,
    task: &Task,
    session: &mut Session,
    workers: u32,
    gate: &G,
) -> Result<(), Stop>
    requires sound { IsSound session.old }
    requires some { 1 ≤ workers }
    requires at_most { workers ≤ 64 }
    ensures answer { EndsTurn tasks number task.now session.old (D.seen desk.old) session.new result (D.seen desk.new) }
    ensures sound { IsSound session.new }
{
    let carried = carry_out(rt, alloc, desk, task, session, workers, gate);
    end_turn(alloc, desk, number, word(task), answer(task), carried)
}

/// Carries the tasks out in order, from nothing, until one is refused, and says the listing.
pub(crate) fn run_tasks<R: Threads + Sync, D: Desk, G: CaseGate + Sync>(
    rt: &R,
    alloc: Global,
    desk: &mut D,
    all: &[Task],
    workers: u32,
    gate: &G,
) -> Result<(), Stop>
    requires some { 1 ≤ workers }
    requires at_most { workers ≤ 64 }
    ensures { Runs tasks 1 all.now None (D.seen desk.old) result (D.seen desk.new) }
{
    let mut session = None;
    'tasks: for (index, task) in all.iter().enumerate() {
        turn(
            rt,
            alloc,
            desk,
            index + 1,
            task,
            &mut session,
            workers,
            gate,
        )?;
    }
    Ok(())
}
