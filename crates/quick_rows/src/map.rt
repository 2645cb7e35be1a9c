//! A map that is ready for its values at many points.

ghost use Rattle.std.specs.Prelude.{◌≡◌, ◌≤◌, length, All, IfOk};
ghost use Rattle.az_lin.specs.Affine.{IsCoordinate, HasWidth, image_of};

use crate::QuickRow;
use az_lin::{List, Map, Row};
use std::alloc::{AllocError, Global};
use std::marker::Model;

#[derive(Debug, Drop)]
pub struct QuickMap {
    width: usize,
    rows: List<QuickRow>,
}

impl Model for QuickMap {
    ghost use Rattle.std.specs.Prelude.{All};
    ghost use Rattle.az_lin.specs.Affine.{AffineMap, HasWidth};

    ghost Value = { AffineMap };

    ghost view = { λ map. record { width = map.width; rows = map.rows } };

    ghost invariant = { λ map. All (HasWidth map.width) map.rows };
}

/// The rows, made ready.
pub(crate) fn quick_rows(alloc: Global, rows: &[Row]) -> Result<List<QuickRow>, AllocError>
    ensures { IfOk result (λ quick. quick ≡ rows.now) }
{
    let mut quick = Vec::with_capacity(alloc, rows.len())?;
    'rows: for row in rows {
        quick.push(QuickRow::of_row(alloc, row)?)?;
    }
    Ok(List::from_vec(quick))
}

impl QuickMap {
    pub fn of_map(alloc: Global, map: &Map) -> Result<QuickMap, AllocError>
        ensures { IfOk result (λ quick. quick ≡ map.now) }
    {
        let rows = quick_rows(alloc, map.rows())?;
        Ok(QuickMap {
            width: map.width(),
            rows,
        })
    }

    /// How many coordinates the image has.
    pub fn len(&self) -> usize
        ensures { result ≡ length self.now.rows }
    {
        self.rows.len()
    }

    fn rows(&self) -> &[QuickRow]
        ensures value { result.now ≡ self.now.rows }
        ensures widths { All (HasWidth self.now.width) result.now }
    {
        self.rows.as_slice()
    }

    /// Writes the image of `z`, the value of row k at place k. The limits of `Row::value` hold.
    pub fn apply(&self, z: &[i128], out: &mut [i128])
        requires width { length z.now ≡ self.now.width }
        requires narrow { length z.now ≤ 64 }
        requires range { All IsCoordinate z.now }
        requires room { length out.old ≡ length self.now.rows }
        ensures { out.new ≡ image_of self.now z.now }
    {
        let rows = self.rows();
        'rows: for number in 0..rows.len() {
            out[number] = rows[number].value(z);
        }
    }
}
