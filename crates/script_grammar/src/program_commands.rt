//! The arguments of the commands that read, change or show a program.

ghost use Rattle.grammar_rules.specs.Gives.{Gives};
ghost use Rattle.script_grammar.specs.Readers.{read_arguments};
ghost use Rattle.script_grammar.specs.declared.words.CommandWord.TheVariants as word;

use crate::Command;
use crate::lists::{variables, vector};
use crate::maps::map;
use crate::numbers::number;
use crate::words::{comma, file, name};
use grammar_rules::{ReadError, TokenCursor};
use std::alloc::Global;

pub(crate) fn read_alphabets(
    alloc: Global,
    cursor: TokenCursor<'_>,
) -> Result<(Command, TokenCursor<'_>), ReadError>
    ensures { Gives result (read_arguments word.ReadAlphabets cursor.entry.budget cursor.entry.rest.now) }
{
    let (file, end) = file(alloc, cursor)?;
    Ok((Command::ReadAlphabets { file }, end))
}

pub(crate) fn find_schedule(
    alloc: Global,
    cursor: TokenCursor<'_>,
) -> Result<(Command, TokenCursor<'_>), ReadError>
    ensures { Gives result (read_arguments word.FindSchedule cursor.entry.budget cursor.entry.rest.now) }
{
    let (variables, end) = variables(alloc, cursor)?;
    Ok((Command::FindSchedule { variables }, end))
}

pub(crate) fn change_of_basis(
    alloc: Global,
    cursor: TokenCursor<'_>,
) -> Result<(Command, TokenCursor<'_>), ReadError>
    ensures { Gives result (read_arguments word.CoB cursor.entry.budget cursor.entry.rest.now) }
{
    let (variable, next) = name(alloc, cursor)?;
    let (map, end) = map(alloc, comma(next)?)?;
    Ok((Command::CoB { variable, map }, end))
}

pub(crate) fn inline(
    alloc: Global,
    cursor: TokenCursor<'_>,
) -> Result<(Command, TokenCursor<'_>), ReadError>
    ensures { Gives result (read_arguments word.Inline cursor.entry.budget cursor.entry.rest.now) }
{
    let (into, next) = name(alloc, cursor)?;
    let (target, end) = name(alloc, comma(next)?)?;
    Ok((Command::Inline { into, target }, end))
}

pub(crate) fn remove_unused(
    alloc: Global,
    cursor: TokenCursor<'_>,
) -> Result<(Command, TokenCursor<'_>), ReadError>
    ensures { Gives result (read_arguments word.RemoveUnused cursor.entry.budget cursor.entry.rest.now) }
{
    let (variable, end) = name(alloc, cursor)?;
    Ok((Command::RemoveUnused { variable }, end))
}

pub(crate) fn simplify_reduction(
    alloc: Global,
    cursor: TokenCursor<'_>,
) -> Result<(Command, TokenCursor<'_>), ReadError>
    ensures { Gives result (read_arguments word.SimplifyReduction cursor.entry.budget cursor.entry.rest.now) }
{
    let (variable, next) = name(alloc, cursor)?;
    let (vector, end) = vector(alloc, comma(next)?)?;
    Ok((Command::SimplifyReduction { variable, vector }, end))
}

pub(crate) fn factor_reduction(
    alloc: Global,
    cursor: TokenCursor<'_>,
) -> Result<(Command, TokenCursor<'_>), ReadError>
    ensures { Gives result (read_arguments word.FactorReduction cursor.entry.budget cursor.entry.rest.now) }
{
    let (variable, end) = name(alloc, cursor)?;
    Ok((Command::FactorReduction { variable }, end))
}

pub(crate) fn split_reduction(
    alloc: Global,
    cursor: TokenCursor<'_>,
) -> Result<(Command, TokenCursor<'_>), ReadError>
    ensures { Gives result (read_arguments word.SplitReduction cursor.entry.budget cursor.entry.rest.now) }
{
    let (variable, next) = name(alloc, cursor)?;
    let (outer, end) = number(comma(next)?)?;
    Ok((Command::SplitReduction { variable, outer }, end))
}
