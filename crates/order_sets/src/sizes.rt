//! The sizes of the tiles of the band.

ghost use Rattle.std.specs.Prelude.{◌≡◌, ◌∷◌, ◌++◌, [], OnOk, IfOk};
ghost use Rattle.target_map.specs.Kinds.{tile_sizes};

use std::alloc::{AllocError, Global};
use target_map::Kind;

/// Appends the size of the tiles, if there are any.
fn push_size(sizes: &mut Vec<u32>, kind: Kind) -> Result<(), AllocError>
    ensures { OnOk result (sizes.new.items ≡ sizes.old.items ++ tile_sizes (kind ∷ [])) }
{
    if let Kind::Band(size) = kind {
        sizes.push(size)?;
    }
    Ok(())
}

/// For each dimension of the band the size of its tiles.
pub fn tile_sizes(alloc: Global, kinds: &[Kind]) -> Result<Vec<u32>, AllocError>
    ensures { IfOk result (λ sizes. sizes.items ≡ tile_sizes kinds.now) }
{
    let mut sizes = Vec::new(alloc);
    'kinds: for kind in kinds {
        push_size(&mut sizes, *kind)?;
    }
    Ok(sizes)
}
