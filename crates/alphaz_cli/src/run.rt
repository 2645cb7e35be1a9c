//! The top call: everything that the program does.

ghost use Rattle.std.specs.Prelude.{◌≡◌, ◌≢◌, ◌≤◌, ◌⊎◌, ℕ, List, Some, None};
ghost use Rattle.az_desk.specs.Desk.{Rose};
ghost use Rattle.az_desk.specs.Files.{Files};
ghost use Rattle.alphaz_cli.specs.Evaluation.{evaluation};
ghost use Rattle.alphaz_cli.specs.Runs.{asked, usage, HasWorkers, RunsScript, RunsRequest, RunsWords, EndsAs, OfTasks, IsCarriedOut};
ghost use Rattle.alphaz_cli.specs.Tasks.{file_of};
ghost use Rattle.command_listing.specs.Standing.{stands_under};
ghost use Rattle.command_words.specs.Requests.{AsksFor};
ghost use Rattle.command_words.specs.Words.{texts};
ghost use Rattle.command_words.specs.declared.request.Request.{Request as Asked};
ghost use Rattle.session_state.specs.Endings.{Ends};
ghost use Rattle.session_state.specs.Steps.{TakesAlone};

use crate::eval::eval;
use crate::listing::run_tasks;
use crate::script::script;
use crate::status::{Status, answer_of};
use az_desk::Desk;
use command_words::{Evaluation, Request, request_of};
use formula_refute::CaseGate;
use session_state::{Refusal, Stop, say, say_stop, status};
use std::alloc::{AllocError, Global};
use std::thread::Threads;

/// What stands before the line of a refusal that is no command's.
const FRONT: &str = "alphaz: ";

/// What the words ask for.
fn asked(alloc: Global, words: &[String]) -> Result<Request, Stop>
    ensures { TakesAlone (asked (texts words.now)) result }
{
    match request_of(alloc, words) {
        Ok(Some(request)) => Ok(request),
        Ok(None) => Err(Stop::Refused(Refusal::Usage)),
        Err(AllocError) => Err(Stop::Memory),
    }
}

fn run_evaluation<D: Desk>(alloc: Global, desk: &mut D, asked: &Evaluation) -> Result<(), Stop>
    ensures { Ends (evaluation (D.seen desk.old).files asked.now) (D.seen desk.old) result (D.seen desk.new) }
{
    match eval(alloc, desk, asked) {
        Ok(rows) => say(alloc, desk, rows.as_slice()),
        Err(stop) => Err(say_stop(alloc, desk, FRONT, stop)),
    }
}

fn run_script<R: Threads + Sync, D: Desk, G: CaseGate + Sync>(
    rt: &R,
    alloc: Global,
    desk: &mut D,
    file: &str,
    workers: u32,
    gate: &G,
) -> Result<(), Stop>
    requires some { 1 ≤ workers }
    requires at_most { workers ≤ 64 }
    ensures { RunsScript file.now (D.seen desk.old) (D.seen desk.new) result }
{
    match script(alloc, desk, file) {
        Ok(tasks) => run_tasks(rt, alloc, desk, tasks.as_slice(), workers, gate),
        Err(stop) => Err(say_stop(alloc, desk, FRONT, stop)),
    }
}

/// Says the usage line.
fn say_usage<D: Desk>(alloc: Global, desk: &mut D) -> Result<(), Stop>
    ensures { Ends usage (D.seen desk.old) result (D.seen desk.new) }
{
    Err(say_stop(alloc, desk, FRONT, Stop::Refused(Refusal::Usage)))
}

/// Does what is asked.
fn run_request<R: Threads + Sync, D: Desk, G: CaseGate + Sync>(
    rt: &R,
    alloc: Global,
    desk: &mut D,
    request: &Request,
    gate: &G,
) -> Result<(), Stop>
    requires workers { HasWorkers request.now }
    ensures { RunsRequest request.now (D.seen desk.old) (D.seen desk.new) result }
{
    match request {
        Request::Eval(asked) => run_evaluation(alloc, desk, asked),
        Request::Run { script, workers } => {
            run_script(rt, alloc, desk, script.as_str(), *workers, gate)
        }
        Request::Check { .. } => say_usage(alloc, desk),
        Request::Make { .. } => say_usage(alloc, desk),
    }
}

fn run<R: Threads + Sync, D: Desk, G: CaseGate + Sync>(
    rt: &R,
    alloc: Global,
    words: &[String],
    desk: &mut D,
    gate: &G,
) -> Result<(), Stop>
    ensures { RunsWords (texts words.now) (D.seen desk.old) (D.seen desk.new) result }
{
    match asked(alloc, words) {
        Ok(request) => run_request(rt, alloc, desk, &request, gate),
        Err(stop) => Err(say_stop(alloc, desk, FRONT, stop)),
    }
}

/// Runs the words after the program's name: reads, writes and says at the desk, and gives the exit status. The gate is
/// told before each case of a formula that a worker decides.
pub fn alphaz<R: Threads + Sync, D: Desk, G: CaseGate + Sync>(
    rt: &R,
    alloc: Global,
    words: &[String],
    desk: &mut D,
    gate: &G,
) -> Status
    // What was said, which files were written, and why the run ended so.
    ensures ends { EndsAs (texts words.now) (D.seen desk.old) result (D.seen desk.new) }
    // No file changes where no command may write one, and else none that no command names.
    ensures files { OfTasks (λ task. file_of task ≡ None) (texts words.now) (D.seen desk.old).files → (D.seen desk.new).files ≡ (D.seen desk.old).files }
    ensures others { (name : List ℕ) → OfTasks (λ task. file_of task ≢ Some name) (texts words.now) (D.seen desk.old).files
        → stands_under name (D.seen desk.new).files ≡ stands_under name (D.seen desk.old).files }
    // What is asked for and can be carried out is done, if the desk doesn't fail and memory suffices.
    ensures complete { (told : Files) (request : Asked) → (D.seen desk.old).files ≡ Some told → AsksFor (texts words.now) request → IsCarriedOut request (Some told)
        → (Rose (D.seen desk.old).faults (D.seen desk.new).faults → ⊥) → (result.code ≡ 0) ⊎ (result.code ≡ 13) }
{
    let ending = run(rt, alloc, words, desk, gate);
    Status {
        code: status(&ending),
        answer: answer_of(ending),
    }
}
