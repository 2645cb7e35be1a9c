//! Instances with their keys.

ghost use Rattle.std.specs.Prelude.{◌≡◌, OnOk, IsPermutation, IsSorted};
ghost use Rattle.tile_waves.specs.Inner.Items.{item_cmp};

use az_lin::List;
use execution::Instance;
use std::alloc::AllocError;
use std::cmp::Ordering;

/// The keys of the instance's wave, of its tile in the wave, and of its place in the tile.
#[derive(Debug, Drop)]
pub(crate) struct Item {
    pub(crate) wave: List<i128>,
    pub(crate) tile: List<i128>,
    pub(crate) work: List<i128>,
    pub(crate) instance: Instance,
}

impl Item {
    fn compare(&self, other: &Item) -> Ordering
        ensures { result ≡ item_cmp self.now other.now }
    {
        let wave = self.wave.as_slice().cmp(other.wave.as_slice());
        let tile = self.tile.as_slice().cmp(other.tile.as_slice());
        let work = self.work.as_slice().cmp(other.work.as_slice());
        wave.then(tile.then(work))
    }
}

/// Puts the items in the order in which they are carried out.
pub(crate) fn sort(items: &mut Vec<Item>) -> Result<(), AllocError>
    ensures same { IsPermutation items.old.items items.new.items }
    ensures sorted { OnOk result (IsSorted item_cmp items.new.items) }
{
    items.sort_by(|first, second| first.compare(second))
}
