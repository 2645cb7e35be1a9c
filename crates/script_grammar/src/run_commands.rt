//! The arguments of the commands that give values and run.

ghost use Rattle.grammar_rules.specs.Gives.{Gives};
ghost use Rattle.script_grammar.specs.Readers.{read_arguments};
ghost use Rattle.script_grammar.specs.declared.words.CommandWord.TheVariants as word;

use crate::Command;
use crate::lists::vector;
use crate::numbers::number;
use crate::words::{comma, file, name};
use grammar_rules::{ReadError, TokenCursor};
use std::alloc::Global;

pub(crate) fn parameter(
    alloc: Global,
    cursor: TokenCursor<'_>,
) -> Result<(Command, TokenCursor<'_>), ReadError>
    ensures { Gives result (read_arguments word.SetParameter cursor.entry.budget cursor.entry.rest.now) }
{
    let (parameter, next) = name(alloc, cursor)?;
    let (number, end) = number(comma(next)?)?;
    Ok((Command::SetParameter { parameter, number }, end))
}

pub(crate) fn read_input(
    alloc: Global,
    cursor: TokenCursor<'_>,
) -> Result<(Command, TokenCursor<'_>), ReadError>
    ensures { Gives result (read_arguments word.ReadInput cursor.entry.budget cursor.entry.rest.now) }
{
    let (input, next) = name(alloc, cursor)?;
    let (file, end) = file(alloc, comma(next)?)?;
    Ok((Command::ReadInput { input, file }, end))
}

pub(crate) fn interleave(
    alloc: Global,
    cursor: TokenCursor<'_>,
) -> Result<(Command, TokenCursor<'_>), ReadError>
    ensures { Gives result (read_arguments word.Interleave cursor.entry.budget cursor.entry.rest.now) }
{
    let (workers, next) = number(cursor)?;
    let (turns, end) = vector(alloc, comma(next)?)?;
    Ok((Command::Interleave { workers, turns }, end))
}

pub(crate) fn spread_reduce(
    alloc: Global,
    cursor: TokenCursor<'_>,
) -> Result<(Command, TokenCursor<'_>), ReadError>
    ensures { Gives result (read_arguments word.SpreadReduce cursor.entry.budget cursor.entry.rest.now) }
{
    let (variable, next) = name(alloc, cursor)?;
    let (point, end) = vector(alloc, comma(next)?)?;
    Ok((Command::SpreadReduce { variable, point }, end))
}
