//! An affine map: for each coordinate of the image, the row that gives it.

ghost use Rattle.std.specs.Prelude.{◌≡◌, ◌≤◌, length, All, IfOk};
ghost use Rattle.az_lin.specs.Affine.{AffineMap, HasWidth, HasEntries, IsCoordinate, image_of};
ghost use Rattle.az_lin.specs.Answers.{IsExactly};
ghost use Rattle.az_lin.specs.Substitution.{Point, HasEntryRows, composed_map};

use crate::row::known;
use crate::{LinFault, List, Row, TryCopy};
use std::alloc::Global;
use std::marker::Model;

#[derive(Debug, Drop)]
pub struct Map {
    width: usize,
    rows: List<Row>,
}

impl Model for Map {
    ghost use Rattle.std.specs.Prelude.{All};
    ghost use Rattle.az_lin.specs.Affine.{AffineMap, HasWidth, HasEntries};

    ghost Value = { AffineMap };

    ghost view = { λ map. record { width = map.width; rows = map.rows } };

    ghost invariant = { λ map. All (HasWidth map.width) map.rows × All HasEntries map.rows };
}

impl Map {
    pub fn new(width: usize, rows: List<Row>) -> Map
        requires { All (HasWidth width) rows }
        ensures { result ≡ record { width = width; rows = rows } }
    {
        known(rows.as_slice());
        Map { width, rows }
    }

    pub fn width(&self) -> usize
        ensures value { result ≡ self.now.width }
        ensures widths { All (HasWidth result) self.now.rows }
    {
        self.width
    }

    pub fn rows(&self) -> &[Row]
        ensures value { result.now ≡ self.now.rows }
        ensures widths { All (HasWidth self.now.width) result.now }
        ensures entries { All HasEntries result.now }
    {
        self.rows.as_slice()
    }

    /// Writes the image of `z`, the value of row k at place k. The limits of `Row::value` hold.
    pub fn apply(&self, z: &[i128], out: &mut [i128])
        requires width { length z.now ≡ self.now.width }
        requires narrow { length z.now ≤ 64 }
        requires range { All IsCoordinate z.now }
        requires room { length out.old ≡ length self.now.rows }
        ensures { out.new ≡ image_of self.now z.now }
    {
        let rows = self.rows();
        'rows: for number in 0..rows.len() {
            out[number] = rows[number].value(z);
        }
    }

    /// The map that first does `f`: its value at `z` is the value of `self` at `f(z)`.
    pub fn compose(&self, alloc: Global, f: &Map) -> Result<Map, LinFault>
        requires rows { length f.now.rows ≡ self.now.width }
        requires narrow { self.now.width ≤ 64 }
        ensures exact { IsExactly HasEntryRows (composed_map self.now f.now) result }
        ensures meaning { (z : Point) → IfOk result (λ map. image_of map z ≡ image_of self.now (image_of f.now z)) }
    {
        let own = self.rows();
        let mut rows = Vec::with_capacity(alloc, own.len())?;
        'rows: for row in own {
            rows.push(row.compose(alloc, f)?)?;
        }
        Ok(Map::new(f.width, List::from_vec(rows)))
    }
}

impl TryCopy for Map {
    fn copy(&self, alloc: Global) -> Result<Self, LinFault> {
        let rows = self.rows.copy(alloc)?;
        Ok(Map {
            width: self.width,
            rows,
        })
    }
}
