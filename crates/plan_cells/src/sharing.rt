//! Which variables are kept in one space.

ghost use Rattle.std.specs.Prelude.{◌≡◌, map, IfOk};
ghost use Rattle.std.specs.List.{range_with_len};
ghost use Rattle.plan_cells.specs.Numbering.{first_of, opens};
ghost use Rattle.target_map.specs.Storage.{shares_space};

use std::alloc::{AllocError, Global};
use target_map::Mapping;

fn shares_space(mapping: &Mapping, x: u32, y: u32) -> bool
    ensures { result ≡ shares_space mapping.now x y }
{
    let Some(first) = mapping.storage(x) else {
        return false;
    };
    let Some(second) = mapping.storage(y) else {
        return false;
    };
    first.space.as_str() == second.space.as_str()
}

/// For each of so many variables, whether it shares the space of `x`.
pub(crate) fn sharers(
    alloc: Global,
    mapping: &Mapping,
    x: u32,
    count: u32,
) -> Result<Vec<bool>, AllocError>
    ensures { IfOk result (λ sharers. sharers.items ≡ map (shares_space mapping.now x) (range_with_len 0 count)) }
{
    let mut sharers = Vec::new(alloc);
    'variables: for y in 0..count {
        sharers.push(shares_space(mapping, x, y))?;
    }
    Ok(sharers)
}

/// The first variable in the space of `x`.
pub(crate) fn first_of(mapping: &Mapping, x: u32) -> u32
    ensures { result ≡ first_of mapping.now x }
{
    'variables: for y in 0..x {
        if shares_space(mapping, x, y) {
            return y;
        }
    }
    x
}

/// Whether it is the first variable in its space.
pub(crate) fn opens(mapping: &Mapping, x: u32) -> bool
    ensures { result ≡ opens mapping.now x }
{
    shares_space(mapping, x, x) && first_of(mapping, x) == x
}
