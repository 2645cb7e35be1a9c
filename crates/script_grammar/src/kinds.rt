//! The kinds of dimensions.

ghost use Rattle.grammar_rules.specs.Gives.{Gives, GivesAlways};
ghost use Rattle.script_grammar.specs.Readers.{read_kind_of, read_kind, read_kinds};
ghost use Rattle.script_grammar.specs.declared.words.KindWord.TheVariants.{Processor};

use crate::KindText;
use crate::numbers::number;
use crate::words::{KindWord, RESERVED, kind_word, sees};
use az_lin::List;
use grammar_rules::classes::{MINUS, NAME, NUMBER};
use grammar_rules::{ReadError, TokenCursor, items};
use std::alloc::Global;

/// Processors, in blocks of one where no size stands there.
fn processor(cursor: TokenCursor<'_>) -> Result<(KindText, TokenCursor<'_>), ReadError>
    ensures { GivesAlways result (read_kind_of Processor cursor.entry.budget cursor.entry.rest.now) }
{
    if !sees(cursor, &[MINUS, NUMBER]) {
        return Ok((KindText::Processor(1), cursor));
    }
    let (size, end) = number(cursor)?;
    Ok((KindText::Processor(size), end))
}

/// What stands behind the word of a kind.
fn kind_of(
    word: KindWord,
    cursor: TokenCursor<'_>,
) -> Result<(KindText, TokenCursor<'_>), ReadError>
    ensures { GivesAlways result (read_kind_of word cursor.entry.budget cursor.entry.rest.now) }
{
    match word {
        KindWord::Outer => Ok((KindText::Outer, cursor)),
        KindWord::Band => {
            let (size, end) = number(cursor)?;
            Ok((KindText::Band(size), end))
        }
        KindWord::Processor => processor(cursor),
        KindWord::Inner => Ok((KindText::Inner, cursor)),
    }
}

fn kind(cursor: TokenCursor<'_>) -> Result<(KindText, TokenCursor<'_>), ReadError>
    ensures { GivesAlways result (read_kind cursor.entry.budget cursor.entry.rest.now) }
{
    let (word, next) = kind_word(cursor)?;
    kind_of(word, next)
}

/// Kinds with commas between, or none.
pub(crate) fn kinds(
    alloc: Global,
    cursor: TokenCursor<'_>,
) -> Result<(List<KindText>, TokenCursor<'_>), ReadError>
    ensures { Gives result (read_kinds cursor.entry.budget cursor.entry.rest.now) }
{
    items(alloc, &RESERVED, &[NAME], cursor, |place| kind(place))
}
