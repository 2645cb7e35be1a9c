//! The kinds of the dimensions of time.

ghost use Rattle.std.specs.Prelude.{◌≡◌};
ghost use Rattle.std.specs.List.{list_all};
ghost use Rattle.target_map.specs.Kinds.{rank, rises_from, is_sized};

use az_lin::{LinFault, TryCopy};
use std::alloc::Global;

/// The greatest size of a tile or block.
pub(crate) const MOST_SIZE: u32 = 1 << 20;

/// How the instances along a dimension of time are carried out.
#[derive(Debug, Clone, Copy, PartialEq, Eq)]
pub enum Kind {
    /// One step after the other, outside of all other dimensions.
    Outer,
    /// A dimension of the band, in tiles of this size.
    Band(u32),
    /// Processors, in blocks of this size.
    Processor(u32),
    /// One step after the other, on one processor in a tile.
    Inner,
}

impl TryCopy for Kind {
    fn copy(&self, alloc: Global) -> Result<Self, LinFault> {
        let _ = alloc;
        Ok(*self)
    }
}

fn rank(kind: Kind) -> u32
    ensures { result ≡ rank kind }
{
    match kind {
        Kind::Outer => 0,
        Kind::Band(_) => 1,
        Kind::Processor(_) => 2,
        Kind::Inner => 3,
    }
}

/// Whether the kinds stand in the order outer, band, processor, inner.
pub(crate) fn are_in_order(kinds: &[Kind]) -> bool
    ensures { result ≡ rises_from 0 kinds.now }
{
    let mut least = 0;
    'kinds: for kind in kinds {
        let here = rank(*kind);
        if here < least {
            return false;
        }
        least = here;
    }
    true
}

fn is_sized(kind: Kind) -> bool
    ensures { result ≡ is_sized kind }
{
    match kind {
        Kind::Outer | Kind::Inner => true,
        Kind::Band(size) | Kind::Processor(size) => 0 < size && size <= MOST_SIZE,
    }
}

/// Whether each tile and block has a size from 1 to 2^20.
pub(crate) fn are_sized(kinds: &[Kind]) -> bool
    ensures { result ≡ list_all is_sized kinds.now }
{
    kinds.iter().all(|kind| is_sized(*kind))
}
