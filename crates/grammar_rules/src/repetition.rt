//! A repetition of members, each put to the end of a list.

ghost use Rattle.std.specs.Prelude.{◌≡◌, ◌+◌, ◌<◌, ◌^◌, length, map};
ghost use Rattle.az_text.specs.declared.token.Token.{Token};
ghost use Rattle.grammar_rules.specs.Gives.{Gives, IsReadAs};
ghost use Rattle.grammar_rules.specs.Readers.{Reader, read_onto};
ghost use Rattle.grammar_rules.specs.Rules.{put_last, single};
ghost use Rattle.grammar_rules.specs.Tokens.{class_of};

use crate::{ReadError, TokenCursor};
use az_lin::List;
use std::alloc::Global;

/// A first member, and those behind it as long as the next token's class is in the set. Each takes a token
/// at least where its reader does.
pub fn members<'a, A: Drop, F: Fn(TokenCursor<'a>) -> Result<(A, TokenCursor<'a>), ReadError>>(
    alloc: Global,
    reserved: &[&str],
    set: &[u32],
    first: A,
    start: TokenCursor<'a>,
    next: F,
) -> Result<(List<A>, TokenCursor<'a>), ReadError>
    requires few { 26 + length reserved.now < 2 ^ 32 }
    requires callable { F.IsAlwaysCallable next }
    ensures { (reader : Reader Token A) → IsReadAs (F.post next) reader
        → Gives result (read_onto (class_of (map (λ one. one.now) reserved.now)) set.now put_last reader (single first) start.entry.budget start.entry.rest.now) }
{
    // Most lists have one member, and should take no more room.
    let mut items = Vec::with_capacity(alloc, 1)?;
    items.push(first)?;
    let mut place = start;
    let mut turns = start.rest.len();
    'members: while turns > 0 && place.sees(reserved, set) {
        let (member, end) = next(place)?;
        items.push(member)?;
        place = end;
        turns -= 1;
    }
    Ok((List::from_vec(items), place))
}
