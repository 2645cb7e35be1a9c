//! The end of a whole text.

ghost use Rattle.std.specs.Prelude.{IsErrOf};
ghost use Rattle.grammar_rules.specs.declared.fault.ReadError.TheVariants.{Memory};
ghost use Rattle.grammar_rules.specs.Gives.{Gives, Concludes};
ghost use Rattle.grammar_rules.specs.Readers.{Answer};
ghost use Rattle.grammar_rules.specs.Whole.{verdict};

use crate::{Cursor, ReadError};

/// What a reader gives for a whole text, where nothing may stand behind what it takes.
pub fn finish<T, A: Drop>(read: Result<(A, Cursor<'_, T>), ReadError>) -> Result<A, ReadError>
    ensures answer { (answer : Answer T A) → Gives read.entry answer → Concludes result (verdict answer) }
    // Want of memory is handed on, and comes from nowhere else.
    ensures memory { IsErrOf result Memory → IsErrOf read.entry Memory }
{
    match read {
        Ok((value, cursor)) => {
            if cursor.rest.is_empty() {
                Ok(value)
            } else {
                Err(cursor.misplaced())
            }
        }
        Err(fault) => Err(fault),
    }
}
