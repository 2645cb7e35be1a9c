//! Numbers, with a minus before them where one may stand.

ghost use Rattle.std.specs.Prelude.{◌≡◌};
ghost use Rattle.grammar_rules.specs.Gives.{GivesAlways};
ghost use Rattle.script_grammar.specs.Readers.{read_magnitude, read_number};
ghost use Rattle.script_grammar.specs.Values.{signed};

use crate::words::sees;
use az_text::MarkKind;
use grammar_rules::classes::MINUS;
use grammar_rules::{ReadError, TokenCursor};

const GREATEST: u128 = (1 << 127) - 1;

/// The number with its sign.
pub(crate) fn signed(negative: bool, number: u128) -> i128
    ensures { result ≡ signed negative number }
{
    let magnitude = number.min(GREATEST) as i128;
    if negative { -magnitude } else { magnitude }
}

pub(crate) fn magnitude(cursor: TokenCursor<'_>) -> Result<(i128, TokenCursor<'_>), ReadError>
    ensures { GivesAlways result (read_magnitude cursor.entry.budget cursor.entry.rest.now) }
{
    let (number, end) = cursor.number(0)?;
    Ok((signed(false, number), end))
}

pub(crate) fn number(cursor: TokenCursor<'_>) -> Result<(i128, TokenCursor<'_>), ReadError>
    ensures { GivesAlways result (read_number cursor.entry.budget cursor.entry.rest.now) }
{
    if !sees(cursor, &[MINUS]) {
        return magnitude(cursor);
    }
    let next = cursor.mark(MarkKind::Minus, 0)?;
    let (number, end) = next.number(0)?;
    Ok((signed(true, number), end))
}
