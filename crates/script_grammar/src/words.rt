//! The words of commands and of kinds, and names, which any word may be.

ghost use Rattle.std.specs.Prelude.{◌≡◌};
ghost use Rattle.grammar_rules.specs.Gives.{Gives, GivesAlways, Passes};
ghost use Rattle.grammar_rules.specs.Readers.{sees};
ghost use Rattle.az_text.specs.declared.mark.MarkKind.TheVariants.{Comma};
ghost use Rattle.grammar_rules.specs.TokenRules.{read_mark, read_word_of};
ghost use Rattle.script_grammar.specs.Readers.{read_name, read_file};
ghost use Rattle.script_grammar.specs.Words.{class, command_words, kind_words};

use az_lin::Name;
use az_text::MarkKind;
use grammar_rules::{ReadError, TokenCursor};
use std::alloc::Global;

/// The words that are no names: there are none.
pub(crate) const RESERVED: [&str; 0] = [];

/// The first word of a command.
#[derive(Clone, Copy, Drop)]
pub(crate) enum CommandWord {
    ReadAlphabets,
    CheckProgram,
    Show,
    FindSchedule,
    CoB,
    Normalize,
    Inline,
    RemoveUnused,
    SimplifyReduction,
    FactorReduction,
    SplitReduction,
    SetDimensionKinds,
    SetSpaceTimeMap,
    SetMemoryMap,
    SetStatementOrder,
    VerifyTargetMapping,
    WriteCertificate,
    SetParameter,
    ReadInput,
    Run,
    Interleave,
    ShowLoops,
    RunLoops,
    SpreadReduce,
}

const COMMAND_WORDS: [(&str, CommandWord); 24] = [
    ("ReadAlphabets", CommandWord::ReadAlphabets),
    ("CheckProgram", CommandWord::CheckProgram),
    ("Show", CommandWord::Show),
    ("FindSchedule", CommandWord::FindSchedule),
    ("CoB", CommandWord::CoB),
    ("Normalize", CommandWord::Normalize),
    ("Inline", CommandWord::Inline),
    ("RemoveUnused", CommandWord::RemoveUnused),
    ("SimplifyReduction", CommandWord::SimplifyReduction),
    ("FactorReduction", CommandWord::FactorReduction),
    ("SplitReduction", CommandWord::SplitReduction),
    ("setDimensionKinds", CommandWord::SetDimensionKinds),
    ("setSpaceTimeMap", CommandWord::SetSpaceTimeMap),
    ("setMemoryMap", CommandWord::SetMemoryMap),
    ("setStatementOrder", CommandWord::SetStatementOrder),
    ("VerifyTargetMapping", CommandWord::VerifyTargetMapping),
    ("WriteCertificate", CommandWord::WriteCertificate),
    ("setParameter", CommandWord::SetParameter),
    ("ReadInput", CommandWord::ReadInput),
    ("Run", CommandWord::Run),
    ("Interleave", CommandWord::Interleave),
    ("ShowLoops", CommandWord::ShowLoops),
    ("RunLoops", CommandWord::RunLoops),
    ("SpreadReduce", CommandWord::SpreadReduce),
];

/// The word of a kind of dimension.
#[derive(Clone, Copy, Drop)]
pub(crate) enum KindWord {
    Outer,
    Band,
    Processor,
    Inner,
}

const KIND_WORDS: [(&str, KindWord); 4] = [
    ("O", KindWord::Outer),
    ("B", KindWord::Band),
    ("P", KindWord::Processor),
    ("I", KindWord::Inner),
];

/// Whether the next token's class is in the set.
pub(crate) fn sees(cursor: TokenCursor<'_>, set: &[u32]) -> bool
    ensures { result ≡ sees class set.now cursor.entry.rest.now }
{
    cursor.sees(&RESERVED, set)
}

pub(crate) fn command_word(
    cursor: TokenCursor<'_>,
) -> Result<(CommandWord, TokenCursor<'_>), ReadError>
    ensures { GivesAlways result (read_word_of command_words 0 cursor.entry.budget cursor.entry.rest.now) }
{
    cursor.word_of(&COMMAND_WORDS, 0)
}

pub(crate) fn kind_word(cursor: TokenCursor<'_>) -> Result<(KindWord, TokenCursor<'_>), ReadError>
    ensures { GivesAlways result (read_word_of kind_words 0 cursor.entry.budget cursor.entry.rest.now) }
{
    cursor.word_of(&KIND_WORDS, 0)
}

pub(crate) fn comma(cursor: TokenCursor<'_>) -> Result<TokenCursor<'_>, ReadError>
    ensures { Passes result (read_mark Comma 0 cursor.entry.budget cursor.entry.rest.now) }
{
    cursor.mark(MarkKind::Comma, 0)
}

pub(crate) fn name(
    alloc: Global,
    cursor: TokenCursor<'_>,
) -> Result<(Name, TokenCursor<'_>), ReadError>
    ensures { Gives result (read_name cursor.entry.budget cursor.entry.rest.now) }
{
    grammar_rules::name(alloc, &RESERVED, cursor, 0)
}

/// The name of a file, between quotes.
pub(crate) fn file(
    alloc: Global,
    cursor: TokenCursor<'_>,
) -> Result<(Name, TokenCursor<'_>), ReadError>
    ensures { Gives result (read_file cursor.entry.budget cursor.entry.rest.now) }
{
    let (text, end) = cursor.quoted(0)?;
    match Name::from_str(alloc, text) {
        Ok(name) => Ok((name, end)),
        Err(_) => Err(ReadError::Memory),
    }
}
