//! The arguments of the commands that make a mapping.

ghost use Rattle.grammar_rules.specs.Gives.{Gives};
ghost use Rattle.script_grammar.specs.Readers.{read_arguments};
ghost use Rattle.script_grammar.specs.declared.words.CommandWord.TheVariants as word;

use crate::Command;
use crate::kinds::kinds;
use crate::lists::{factors, variables};
use crate::maps::map;
use crate::words::{comma, file, name};
use grammar_rules::{ReadError, TokenCursor};
use std::alloc::Global;

pub(crate) fn dimension_kinds(
    alloc: Global,
    cursor: TokenCursor<'_>,
) -> Result<(Command, TokenCursor<'_>), ReadError>
    ensures { Gives result (read_arguments word.SetDimensionKinds cursor.entry.budget cursor.entry.rest.now) }
{
    let (kinds, end) = kinds(alloc, cursor)?;
    Ok((Command::SetDimensionKinds { kinds }, end))
}

pub(crate) fn space_time_map(
    alloc: Global,
    cursor: TokenCursor<'_>,
) -> Result<(Command, TokenCursor<'_>), ReadError>
    ensures { Gives result (read_arguments word.SetSpaceTimeMap cursor.entry.budget cursor.entry.rest.now) }
{
    let (variable, next) = name(alloc, cursor)?;
    let (map, end) = map(alloc, comma(next)?)?;
    Ok((Command::SetSpaceTimeMap { variable, map }, end))
}

pub(crate) fn memory_map(
    alloc: Global,
    cursor: TokenCursor<'_>,
) -> Result<(Command, TokenCursor<'_>), ReadError>
    ensures { Gives result (read_arguments word.SetMemoryMap cursor.entry.budget cursor.entry.rest.now) }
{
    let (variable, next) = name(alloc, cursor)?;
    let (space, next) = name(alloc, comma(next)?)?;
    let (map, next) = map(alloc, comma(next)?)?;
    let (factors, end) = factors(alloc, comma(next)?)?;
    let command = Command::SetMemoryMap {
        variable,
        space,
        map,
        factors,
    };
    Ok((command, end))
}

pub(crate) fn statement_order(
    alloc: Global,
    cursor: TokenCursor<'_>,
) -> Result<(Command, TokenCursor<'_>), ReadError>
    ensures { Gives result (read_arguments word.SetStatementOrder cursor.entry.budget cursor.entry.rest.now) }
{
    let (variables, end) = variables(alloc, cursor)?;
    Ok((Command::SetStatementOrder { variables }, end))
}

pub(crate) fn write_certificate(
    alloc: Global,
    cursor: TokenCursor<'_>,
) -> Result<(Command, TokenCursor<'_>), ReadError>
    ensures { Gives result (read_arguments word.WriteCertificate cursor.entry.budget cursor.entry.rest.now) }
{
    let (file, end) = file(alloc, cursor)?;
    Ok((Command::WriteCertificate { file }, end))
}
