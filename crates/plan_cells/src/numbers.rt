//! The numbers of cells, by variables and coordinates.

ghost use Rattle.std.specs.Prelude.{◌≡◌, ◌≤◌, ◌<◌, ◌^◌, length, All, get_or, drop, pos, ◌-ℤ◌, unsigned_abs};
ghost use Rattle.az_lin.specs.Affine.{IsCoordinate, image_of};
ghost use Rattle.plan_cells.specs.Numbering.{volume, place, HasCell, LiesOn, LieOn, number_in};
ghost use Rattle.plan_words.specs.Cells.{all_reduced};
ghost use Rattle.plan_cells.specs.Inner.Passing.{IsStored};
ghost use Rattle.target_map.specs.Times.{storage_of};

use crate::side::Side;
use az_lin::List;
use std::marker::Model;
use target_map::{Mapping, Storage};

/// Where the cells of a variable's space begin, and the sides of their box.
#[derive(Debug, Drop)]
pub struct Home {
    pub base: u64,
    pub sides: List<Side>,
}

/// The homes of all variables, and how many cells there are.
#[derive(Debug, Drop)]
pub struct Cells {
    pub(crate) homes: Vec<Home>,
    pub(crate) count: u64,
}

impl Model for Cells {
    ghost use Rattle.std.specs.Prelude.{All};
    ghost use Rattle.std.specs.Coded.{codes};
    ghost use Rattle.plan_cells.specs.Numbering.{Numbers};
    ghost use Rattle.plan_cells.specs.Inner.Passing.{IsHomeBelow};

    ghost Value = { Numbers };

    ghost coded = { Prim.hlevel codes };

    ghost view = { λ cells. record { homes = cells.homes.items; count = cells.count } };

    ghost invariant = { λ cells. All IsHomeBelow cells.homes.items };
}

/// A coordinate of the cell at a point of the variable: its remainder, where it has a factor.
fn coordinate_at(storage: &Storage, z: &[i128], number: usize) -> i128
    requires declared { number < length storage.now.factors }
    requires rows { length storage.now.factors ≡ length storage.now.map.rows }
    requires width { length z.now ≡ storage.now.map.width }
    requires narrow { length z.now ≤ 64 }
    requires range { All IsCoordinate z.now }
    ensures { result ≡ get_or (all_reduced storage.now.factors (image_of storage.now.map z.now)) number (pos 0) }
{
    let value = storage.map.rows()[number].value(z);
    match storage.factors.as_slice()[number] {
        0 => value,
        factor => value.rem_euclid(i128::from(factor)),
    }
}

/// How far the coordinate is along the side.
fn steps_along(side: Side, coordinate: i128) -> u64
    requires { LiesOn side coordinate }
    ensures value { result ≡ unsigned_abs (coordinate -ℤ side.low) }
    ensures below { result < side.size }
{
    (coordinate - side.low) as u64
}

/// The number of the cell in the box of the sides from `number` on, and how many there are.
fn place_from(sides: &[Side], storage: &Storage, z: &[i128], number: usize) -> (u64, u64)
    requires rows { length storage.now.factors ≡ length storage.now.map.rows }
    requires width { length z.now ≡ storage.now.map.width }
    requires narrow { length z.now ≤ 64 }
    requires range { All IsCoordinate z.now }
    requires lie { LieOn (drop number sides.now) (drop number (all_reduced storage.now.factors (image_of storage.now.map z.now))) }
    requires few { volume (drop number sides.now) ≤ 2 ^ 20 }
    ensures place { result.0 ≡ place (drop number sides.now) (drop number (all_reduced storage.now.factors (image_of storage.now.map z.now))) }
    ensures volume { result.1 ≡ volume (drop number sides.now) }
    ensures below { result.0 < result.1 }
{
    if number >= sides.len() {
        return (0, 1);
    }
    let side = sides[number];
    let (place, volume) = place_from(sides, storage, z, number + 1);
    let steps = steps_along(side, coordinate_at(storage, z, number));
    (steps * volume + place, side.size * volume)
}

impl Cells {
    /// How many cells there are.
    pub fn count(&self) -> u64
        ensures { result ≡ self.now.count }
    {
        self.count
    }

    /// The number of the cell of the variable's instance at the point, which has the parameters first.
    pub fn cell_of(&self, mapping: &Mapping, variable: u32, z: &[i128]) -> u64
        requires cell { HasCell self.now variable (all_reduced (storage_of mapping.now variable).factors (image_of (storage_of mapping.now variable).map z.now)) }
        requires stored { IsStored mapping.now variable (length z.now) }
        requires narrow { length z.now ≤ 64 }
        requires range { All IsCoordinate z.now }
        ensures { result ≡ number_in self.now variable (all_reduced (storage_of mapping.now variable).factors (image_of (storage_of mapping.now variable).map z.now)) }
    {
        let Some(storage) = mapping.storage(variable) else {
            unreachable!()
        };
        let home = &self.homes[variable as usize];
        let (place, _) = place_from(home.sides.as_slice(), storage, z, 0);
        home.base + place
    }
}
