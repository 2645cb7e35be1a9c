//! Items cut where their keys change.

ghost use Rattle.std.specs.Prelude.{◌≡◌, IfOk, reverse};
ghost use Rattle.tile_waves.specs.Inner.Cuts.{goes_on, groups_of};

use crate::item::Item;
use crate::level::Level;
use az_lin::List;
use std::alloc::{AllocError, Global};
use std::mem;

/// Whether the item belongs to the last group.
fn goes_on(level: Level, last: &[Item], item: &Item) -> bool
    ensures { result ≡ goes_on level last.now item.now }
{
    match last.first() {
        Some(first) => level.has_one_key(first, item),
        None => true,
    }
}

/// The groups of the items, in order.
pub(crate) fn groups(
    alloc: Global,
    items: Vec<Item>,
    level: Level,
) -> Result<Vec<List<Item>>, AllocError>
    ensures { IfOk result (λ groups. groups.items ≡ groups_of level (reverse items.items)) }
{
    let mut left = items;
    left.reverse();
    let mut closed = Vec::new(alloc);
    let mut last = Vec::new(alloc);
    'items: while let Some(item) = left.pop() {
        if !goes_on(level, last.as_slice(), &item) {
            let full = mem::replace(&mut last, Vec::new(alloc));
            closed.push(List::from_vec(full))?;
        }
        last.push(item)?;
    }
    if !last.is_empty() {
        closed.push(List::from_vec(last))?;
    }
    Ok(closed)
}
