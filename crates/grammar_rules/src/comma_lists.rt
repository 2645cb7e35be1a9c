//! Lists of any items with commas between.

ghost use Rattle.std.specs.Prelude.{◌≡◌, ◌+◌, ◌<◌, ◌^◌, length};
ghost use Rattle.az_text.specs.declared.token.Token.{Token};
ghost use Rattle.grammar_rules.specs.CommaLists.{read_next_item, read_some_items, read_items};
ghost use Rattle.grammar_rules.specs.Gives.{Gives, IsReadAs};
ghost use Rattle.grammar_rules.specs.Readers.{Reader};
ghost use Rattle.grammar_rules.specs.TokenRules.{words};

use crate::classes::COMMA;
use crate::{ReadError, TokenCursor};
use az_lin::List;
use az_text::MarkKind;
use std::alloc::Global;

/// An item behind a comma.
fn next_item<'a, A: Drop, F: Fn(TokenCursor<'a>) -> Result<(A, TokenCursor<'a>), ReadError>>(
    place: TokenCursor<'a>,
    item: &F,
) -> Result<(A, TokenCursor<'a>), ReadError>
    requires { F.IsAlwaysCallable item.now }
    ensures { (reader : Reader Token A) → IsReadAs (F.post item.now) reader → Gives result (read_next_item reader place.entry.budget place.entry.rest.now) }
{
    let next = place.mark(MarkKind::Comma, 0)?;
    item(next)
}

/// One item or more.
pub fn some_items<'a, A: Drop, F: Fn(TokenCursor<'a>) -> Result<(A, TokenCursor<'a>), ReadError>>(
    alloc: Global,
    reserved: &[&str],
    start: TokenCursor<'a>,
    item: F,
) -> Result<(List<A>, TokenCursor<'a>), ReadError>
    requires few { 26 + length reserved.now < 2 ^ 32 }
    requires callable { F.IsAlwaysCallable item }
    ensures { (reader : Reader Token A) → IsReadAs (F.post item) reader
        → Gives result (read_some_items (words reserved.now) reader start.entry.budget start.entry.rest.now) }
{
    let (first, mut place) = item(start)?;
    let mut items = Vec::with_capacity(alloc, 1)?;
    items.push(first)?;
    let mut turns = place.rest.len();
    'members: while turns > 0 && place.sees(reserved, &[COMMA]) {
        let (member, end) = next_item(place, &item)?;
        items.push(member)?;
        place = end;
        turns -= 1;
    }
    Ok((List::from_vec(items), place))
}

/// Items, or none where the next token's class isn't in the set.
pub fn items<'a, A: Drop, F: Fn(TokenCursor<'a>) -> Result<(A, TokenCursor<'a>), ReadError>>(
    alloc: Global,
    reserved: &[&str],
    set: &[u32],
    start: TokenCursor<'a>,
    item: F,
) -> Result<(List<A>, TokenCursor<'a>), ReadError>
    requires few { 26 + length reserved.now < 2 ^ 32 }
    requires callable { F.IsAlwaysCallable item }
    ensures { (reader : Reader Token A) → IsReadAs (F.post item) reader
        → Gives result (read_items (words reserved.now) set.now reader start.entry.budget start.entry.rest.now) }
{
    if start.sees(reserved, set) {
        return some_items(alloc, reserved, start, item);
    }
    Ok((List::new(alloc), start))
}
