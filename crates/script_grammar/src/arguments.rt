//! What stands between the parentheses of a command, by its word.

ghost use Rattle.grammar_rules.specs.Gives.{Gives};
ghost use Rattle.script_grammar.specs.Readers.{read_arguments};

use crate::Command;
use crate::mapping_commands::{
    dimension_kinds, memory_map, space_time_map, statement_order, write_certificate,
};
use crate::program_commands::{
    change_of_basis, factor_reduction, find_schedule, inline, read_alphabets, remove_unused,
    simplify_reduction, split_reduction,
};
use crate::run_commands::{interleave, parameter, read_input, spread_reduce};
use crate::words::CommandWord;
use grammar_rules::{ReadError, TokenCursor};
use std::alloc::Global;

pub(crate) fn arguments(
    alloc: Global,
    word: CommandWord,
    cursor: TokenCursor<'_>,
) -> Result<(Command, TokenCursor<'_>), ReadError>
    ensures { Gives result (read_arguments word cursor.entry.budget cursor.entry.rest.now) }
{
    match word {
        CommandWord::ReadAlphabets => read_alphabets(alloc, cursor),
        CommandWord::CheckProgram => Ok((Command::CheckProgram, cursor)),
        CommandWord::Show => Ok((Command::Show, cursor)),
        CommandWord::FindSchedule => find_schedule(alloc, cursor),
        CommandWord::CoB => change_of_basis(alloc, cursor),
        CommandWord::Normalize => Ok((Command::Normalize, cursor)),
        CommandWord::Inline => inline(alloc, cursor),
        CommandWord::RemoveUnused => remove_unused(alloc, cursor),
        CommandWord::SimplifyReduction => simplify_reduction(alloc, cursor),
        CommandWord::FactorReduction => factor_reduction(alloc, cursor),
        CommandWord::SplitReduction => split_reduction(alloc, cursor),
        CommandWord::SetDimensionKinds => dimension_kinds(alloc, cursor),
        CommandWord::SetSpaceTimeMap => space_time_map(alloc, cursor),
        CommandWord::SetMemoryMap => memory_map(alloc, cursor),
        CommandWord::SetStatementOrder => statement_order(alloc, cursor),
        CommandWord::VerifyTargetMapping => Ok((Command::VerifyTargetMapping, cursor)),
        CommandWord::WriteCertificate => write_certificate(alloc, cursor),
        CommandWord::SetParameter => parameter(alloc, cursor),
        CommandWord::ReadInput => read_input(alloc, cursor),
        CommandWord::Run => Ok((Command::Run, cursor)),
        CommandWord::Interleave => interleave(alloc, cursor),
        CommandWord::ShowLoops => Ok((Command::ShowLoops, cursor)),
        CommandWord::RunLoops => Ok((Command::RunLoops, cursor)),
        CommandWord::SpreadReduce => spread_reduce(alloc, cursor),
    }
}
