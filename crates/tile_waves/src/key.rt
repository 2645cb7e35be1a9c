//! The keys of an instance, from its coordinates in time.

ghost use Rattle.std.specs.Prelude.{◌≡◌, All, IfOk};
ghost use Rattle.az_lin.specs.Affine.{IsCoordinate};
ghost use Rattle.tile_waves.specs.Inner.Items.{wave_at, tile_at, work_at};
ghost use Rattle.tile_waves.specs.Keys.{total};

use crate::column::Column;
use az_lin::List;
use std::alloc::{AllocError, Global};
use target_map::Mapping;

/// The sum.
fn total(numbers: &[i128]) -> i128
    requires { All IsCoordinate numbers.now }
    ensures { result ≡ total numbers.now }
{
    let mut sum: i128 = 0;
    'numbers: for place in 0..numbers.len() {
        sum += numbers[place];
    }
    sum
}

/// The key of the instance's wave.
pub(crate) fn wave_key(
    alloc: Global,
    mapping: &Mapping,
    times: &[i128],
) -> Result<List<i128>, AllocError>
    requires { All IsCoordinate times.now }
    ensures { IfOk result (λ key. key ≡ wave_at mapping.now times.now) }
{
    let kinds = mapping.kinds();
    let mut tiles = Vec::new(alloc);
    Column::Tile.push(&mut tiles, kinds, times)?;
    let mut key = Vec::new(alloc);
    Column::Outer.push(&mut key, kinds, times)?;
    key.push(total(&tiles))?;
    Ok(List::from_vec(key))
}

/// The key of its tile in the wave.
pub(crate) fn tile_key(
    alloc: Global,
    mapping: &Mapping,
    times: &[i128],
) -> Result<List<i128>, AllocError>
    ensures { IfOk result (λ key. key ≡ tile_at mapping.now times.now) }
{
    let kinds = mapping.kinds();
    let mut key = Vec::new(alloc);
    Column::Tile.push(&mut key, kinds, times)?;
    Column::Block.push(&mut key, kinds, times)?;
    Ok(List::from_vec(key))
}

/// The key of its place in the tile.
pub(crate) fn work_key(
    alloc: Global,
    mapping: &Mapping,
    times: &[i128],
    variable: u32,
    point: &[i128],
) -> Result<List<i128>, AllocError>
    ensures { IfOk result (λ key. key ≡ work_at mapping.now times.now variable point.now) }
{
    let kinds = mapping.kinds();
    let mut key = Vec::new(alloc);
    Column::Band.push(&mut key, kinds, times)?;
    Column::Processor.push(&mut key, kinds, times)?;
    Column::Inner.push(&mut key, kinds, times)?;
    key.push(i128::from(mapping.order(variable)))?;
    key.push(i128::from(variable))?;
    key.extend_from_slice(point)?;
    Ok(List::from_vec(key))
}
