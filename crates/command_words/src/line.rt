//! The words behind a command: the plain ones, and the count of workers.
//!
//! The kit's parser of command lines tells them apart. Where it refuses them they are no line, and what it would
//! print is dropped.

ghost use Rattle.std.specs.Prelude.{◌≡◌, IfOk, option_map};
ghost use Rattle.clap.specs.Words.{app_of, found_of, rows_of};
ghost use Rattle.command_words.specs.Lines.{line_of, told};
ghost use Rattle.command_words.specs.Parsing.{has_empty, line_app, line_in};
ghost use Rattle.command_words.specs.Words.{texts};

use clap::error::ErrorKind;
use clap::{Arg, ArgAction, ArgMatches, Command};
use std::alloc::{AllocError, Global};

/// The plain words in order, and what `--workers` has, where it stands.
#[derive(Drop)]
pub(crate) struct Line<'a> {
    pub plain: Vec<&'a str>,
    pub workers: Option<&'a str>,
}

/// Whether an empty word stands before the first `--`, which the parser would take.
fn has_empty(words: &[String]) -> bool
    ensures { result ≡ has_empty (texts words.now) }
{
    for word in words {
        if word.as_str() == "--" {
            return false;
        }
        if word.is_empty() {
            return true;
        }
    }
    false
}

/// The command that is parsed. All commands have the same, so that their words are read alike; which of them a
/// command takes is asked afterwards.
fn line_command<'a>(alloc: Global) -> Result<Command<'a>, AllocError>
    ensures { IfOk result (λ command. app_of command ≡ line_app) }
{
    let words = Arg::new(alloc, "words").action(ArgAction::Append);
    let workers = Arg::new(alloc, "workers").long("workers");
    Command::new(alloc, "line")
        .no_binary_name(true)
        .disable_help_flag(true)
        .arg(words)?
        .arg(workers)
}

/// The line that the parser found.
fn found_line<'a>(alloc: Global, matches: &ArgMatches<'a>) -> Result<Line<'a>, AllocError>
    ensures { IfOk result (λ line. told line.plain.items line.workers ≡ line_in (rows_of (found_of matches.now))) }
{
    let words = matches.get_strs("words").unwrap_or(&[]);
    Ok(Line {
        plain: Vec::from_slice(alloc, words)?,
        workers: matches.get_str("workers"),
    })
}

/// The line of the words, or `None` where they are none.
pub(crate) fn line_of(alloc: Global, words: &[String]) -> Result<Option<Line<'_>>, AllocError>
    ensures { IfOk result (λ found. option_map (λ line. told line.plain.items line.workers) found ≡ line_of (texts words.now)) }
{
    if has_empty(words) {
        return Ok(None);
    }
    match line_command(alloc)?.try_get_matches_from(words) {
        Ok(matches) => Ok(Some(found_line(alloc, &matches)?)),
        Err(error) => {
            if error.kind() == ErrorKind::OutOfMemory {
                Err(AllocError)
            } else {
                Ok(None)
            }
        }
    }
}
