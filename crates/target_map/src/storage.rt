//! Where the instances of a variable are kept.

ghost use Rattle.std.specs.Prelude.{◌≡◌, IfOk};

use az_lin::{LinFault, List, Map, Name, TryCopy};
use std::alloc::{AllocError, Global};

/// A space, the map from the parameters and indices to the coordinates of a cell there, and for
/// each coordinate the factor modulo which it counts, or 0.
#[derive(Debug, Drop)]
pub struct Storage {
    pub space: Name,
    pub map: Map,
    pub factors: List<u32>,
}

impl TryCopy for Storage {
    fn copy(&self, alloc: Global) -> Result<Self, LinFault> {
        let space = self.space.copy(alloc)?;
        let map = self.map.copy(alloc)?;
        let factors = copied(alloc, self.factors.as_slice())?;
        Ok(Storage {
            space,
            map,
            factors,
        })
    }
}

/// The same numbers in memory of their own.
pub(crate) fn copied(alloc: Global, numbers: &[u32]) -> Result<List<u32>, AllocError>
    ensures { IfOk result (λ list. list ≡ numbers.now) }
{
    let items = Vec::from_slice(alloc, numbers)?;
    Ok(List::from_vec(items))
}
