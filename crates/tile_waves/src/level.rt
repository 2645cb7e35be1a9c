//! The levels at which items are put into groups.

ghost use Rattle.std.specs.Prelude.{◌≡◌};
ghost use Rattle.tile_waves.specs.Inner.Cuts.{has_one_key};

use crate::item::Item;
use std::cmp::Ordering;

#[derive(Debug, Clone, Copy)]
pub(crate) enum Level {
    Wave,
    Tile,
}

impl Level {
    /// Whether the two stand in one group.
    pub(crate) fn has_one_key(self, first: &Item, second: &Item) -> bool
        ensures { result ≡ has_one_key self first.now second.now }
    {
        let order = match self {
            Level::Wave => first.wave.as_slice().cmp(second.wave.as_slice()),
            Level::Tile => first.tile.as_slice().cmp(second.tile.as_slice()),
        };
        order == Ordering::Equal
    }
}
