//! The instances of a program, put in order.

ghost use Rattle.std.specs.Prelude.{◌≡◌, length, All, IfOk};
ghost use Rattle.az_lin.specs.Affine.{IsEntry};
ghost use Rattle.target_map.specs.Settings.{IsMapping};
ghost use Rattle.tile_waves.specs.Answers.{WavesAnswers};
ghost use Rattle.tile_waves.specs.Inner.Items.{instances_of};
ghost use Rattle.tile_waves.specs.Inner.Nested.{tiles_of, waves_of};

use crate::cut::groups;
use crate::item::{Item, sort};
use crate::level::Level;
use crate::listing::listed;
use crate::wave_list::Waves;
use az_lin::List;
use execution::Instance;
use loop_scan::ScanFault;
use std::alloc::{AllocError, Global};
use target_map::{CertifiedMap, Mapping};

/// The instances alone.
fn instances(alloc: Global, items: List<Item>) -> Result<List<Instance>, AllocError>
    ensures { IfOk result (λ instances. instances ≡ instances_of items) }
{
    let mut left = items.into_vec();
    left.reverse();
    let mut instances = Vec::with_capacity(alloc, left.len())?;
    'items: while let Some(item) = left.pop() {
        instances.push(item.instance)?;
    }
    Ok(List::from_vec(instances))
}

/// The tiles of a wave.
fn tiles(alloc: Global, wave: List<Item>) -> Result<List<List<Instance>>, AllocError>
    ensures { IfOk result (λ tiles. tiles ≡ tiles_of wave) }
{
    let mut left = groups(alloc, wave.into_vec(), Level::Tile)?;
    left.reverse();
    let mut tiles = Vec::with_capacity(alloc, left.len())?;
    'groups: while let Some(group) = left.pop() {
        tiles.push(instances(alloc, group)?)?;
    }
    Ok(List::from_vec(tiles))
}

/// The waves of tiles of items in order.
fn nested(alloc: Global, items: Vec<Item>) -> Result<List<List<List<Instance>>>, AllocError>
    ensures { IfOk result (λ waves. waves ≡ waves_of items.items) }
{
    let mut left = groups(alloc, items, Level::Wave)?;
    left.reverse();
    let mut waves = Vec::with_capacity(alloc, left.len())?;
    'groups: while let Some(group) = left.pop() {
        waves.push(tiles(alloc, group)?)?;
    }
    Ok(List::from_vec(waves))
}

/// Lets a caller know what every mapping keeps.
fn keeps(mapping: &Mapping)
    ensures { IsMapping mapping.now }
{
    let _ = mapping.kinds();
}

/// The waves of the program at these parameters.
pub fn waves(alloc: Global, map: &CertifiedMap, params: &[i128]) -> Result<Waves, ScanFault>
    requires count { length params.now ≡ length map.now.program.params }
    requires entries { All IsEntry params.now }
    ensures { WavesAnswers map.now.program map.now.mapping params.now result }
{
    keeps(map.mapping());
    let mut items = match listed(alloc, map, params) {
        Ok(items) => items,
        Err(fault) => return Err(fault),
    };
    sort(&mut items)?;
    let list = nested(alloc, items)?;
    Ok(Waves { list })
}
