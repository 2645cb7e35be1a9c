//! What words ask for.

ghost use Rattle.std.specs.Prelude.{◌≡◌, ◌∷◌, codes, IfOk, IfSome, IfNone};
ghost use Rattle.command_words.specs.Lines.{told};
ghost use Rattle.command_words.specs.Words.{texts};
ghost use Rattle.command_words.specs.Requests.{Finds, AsksFor};
ghost use Rattle.command_words.specs.declared.request.Request.{Request as Wanted};

use crate::Evaluation;
use crate::binding::name;
use crate::count::{count, workers};
use crate::evaluation::of_plain;
use crate::line::{Line, line_of};
use az_lin::Name;
use std::alloc::{AllocError, Global};

/// The greatest number that `make` takes.
const MOST_MADE: u32 = 128;

#[derive(Debug, Drop)]
pub enum Request {
    /// The output rows of a program.
    Eval(Evaluation),
    /// The script in this file is carried out, on so many workers.
    Run { script: Name, workers: u32 },
    /// The same on one worker, where verifications are answered by the certificate in this file.
    Check { script: Name, certificate: Name },
    /// The example of this size is written, and its script is carried out.
    Make { number: u32, workers: u32 },
}

fn eval(alloc: Global, line: &Line<'_>) -> Result<Option<Request>, AllocError>
    ensures { Finds (codes "eval") (told line.now.plain.items line.now.workers) result }
{
    if line.workers.is_some() {
        return Ok(None);
    }
    match of_plain(alloc, line.plain.as_slice())? {
        Some(evaluation) => Ok(Some(Request::Eval(evaluation))),
        None => Ok(None),
    }
}

fn run(alloc: Global, line: &Line<'_>) -> Result<Option<Request>, AllocError>
    ensures { Finds (codes "run") (told line.now.plain.items line.now.workers) result }
{
    let [script] = line.plain.as_slice() else {
        return Ok(None);
    };
    let Some(workers) = workers(line.workers) else {
        return Ok(None);
    };
    let script = name(alloc, script)?;
    Ok(Some(Request::Run { script, workers }))
}

fn check(alloc: Global, line: &Line<'_>) -> Result<Option<Request>, AllocError>
    ensures { Finds (codes "check") (told line.now.plain.items line.now.workers) result }
{
    if line.workers.is_some() {
        return Ok(None);
    }
    let [script, certificate] = line.plain.as_slice() else {
        return Ok(None);
    };
    let script = name(alloc, script)?;
    let certificate = name(alloc, certificate)?;
    Ok(Some(Request::Check {
        script,
        certificate,
    }))
}

fn make(line: &Line<'_>) -> Option<Request>
    ensures { Finds (codes "make") (told line.now.plain.items line.now.workers) (Ok result) }
{
    let [number] = line.plain.as_slice() else {
        return None;
    };
    let number = count(number, MOST_MADE)?;
    let workers = workers(line.workers)?;
    Some(Request::Make { number, workers })
}

/// What is asked of a command with this line.
fn asked_of(alloc: Global, command: &str, line: &Line<'_>) -> Result<Option<Request>, AllocError>
    ensures { Finds command.now (told line.now.plain.items line.now.workers) result }
{
    match command {
        "eval" => eval(alloc, line),
        "run" => run(alloc, line),
        "check" => check(alloc, line),
        "make" => Ok(make(line)),
        _ => Ok(None),
    }
}

/// What the words ask for, or `None` where they ask for nothing.
pub fn request_of(alloc: Global, words: &[String]) -> Result<Option<Request>, AllocError>
    ensures found { IfOk result (λ found. IfSome found (λ request. AsksFor (texts words.now) request)) }
    ensures none { IfOk result (λ found. IfNone found ((request : Wanted) → AsksFor (texts words.now) request → ⊥)) }
{
    let [command, behind @ ..] = words else {
        return Ok(None);
    };
    match line_of(alloc, behind)? {
        Some(line) => asked_of(alloc, command.as_str(), &line),
        None => Ok(None),
    }
}
