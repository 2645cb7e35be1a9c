//! Commands and whole scripts, over tokens.

ghost use Rattle.std.specs.Prelude.{[], ◌∷◌};
ghost use Rattle.grammar_rules.specs.Gives.{Gives, IsReadBy};
ghost use Rattle.grammar_rules.specs.Readers.{read_list_of};
ghost use Rattle.grammar_rules.specs.Tokens.{name_class};
ghost use Rattle.script_grammar.specs.Grammar.{script};
ghost use Rattle.script_grammar.specs.Readers.{read_command, read_script};
ghost use Rattle.script_grammar.specs.Words.{class};

use crate::Command;
use crate::arguments::arguments;
use crate::words::{RESERVED, command_word, sees};
use az_lin::List;
use az_text::{MarkKind, Token};
use grammar_rules::classes::NAME;
use grammar_rules::{Cursor, ReadError, TokenCursor, finish, members};
use std::alloc::Global;

fn command(alloc: Global, cursor: TokenCursor<'_>) -> Result<(Command, TokenCursor<'_>), ReadError>
    ensures { Gives result (read_command cursor.entry.budget cursor.entry.rest.now) }
{
    let (word, next) = command_word(cursor)?;
    let inner = next.mark(MarkKind::OpenParen, 0)?;
    let (command, end) = arguments(alloc, word, inner)?;
    let end = end.mark(MarkKind::CloseParen, 0)?;
    Ok((command, end.mark(MarkKind::Semicolon, 0)?))
}

fn some_commands(
    alloc: Global,
    cursor: TokenCursor<'_>,
) -> Result<(List<Command>, TokenCursor<'_>), ReadError>
    ensures { Gives result (read_list_of class (name_class ∷ []) read_command read_command cursor.entry.budget cursor.entry.rest.now) }
{
    let (first, place) = command(alloc, cursor)?;
    members(alloc, &RESERVED, &[NAME], first, place, |place| {
        command(alloc, place)
    })
}

fn script(
    alloc: Global,
    cursor: TokenCursor<'_>,
) -> Result<(List<Command>, TokenCursor<'_>), ReadError>
    ensures { Gives result (read_script cursor.entry.budget cursor.entry.rest.now) }
{
    if sees(cursor, &[NAME]) {
        return some_commands(alloc, cursor);
    }
    Ok((List::new(alloc), cursor))
}

/// The commands of a list of tokens.
pub fn read_tokens(alloc: Global, tokens: &[Token]) -> Result<List<Command>, ReadError>
    ensures { IsReadBy script 0 tokens.now result }
{
    finish(script(alloc, Cursor::new(tokens, 0)))
}
