//! A row that is ready for its values at many points.

ghost use Rattle.std.specs.Prelude.{◌≡◌, ◌≤◌, length, All, IfOk};
ghost use Rattle.az_lin.specs.Affine.{IsCoordinate, value_at};

use crate::parts::{Part, parts_of, sum_at};
use az_lin::{LinFault, Row, TryCopy};
use std::alloc::{AllocError, Global};
use std::marker::Model;

/// The row itself serves where it isn't narrow.
#[derive(Debug, Drop)]
pub struct QuickRow {
    row: Row,
    narrow: bool,
    parts: Vec<Part>,
    konst: i64,
}

impl Model for QuickRow {
    ghost use Rattle.az_lin.specs.Affine.{Affine};
    ghost use Rattle.quick_rows.specs.Parts.{IsQuick};

    ghost Value = { Affine };

    ghost view = { λ quick. quick.row };

    ghost invariant = { λ quick. IsQuick quick.row quick.narrow quick.parts.items quick.konst };
}

fn copied(alloc: Global, row: &Row) -> Result<Row, AllocError>
    ensures { IfOk result (λ copied. copied ≡ row.now) }
{
    match row.copy(alloc) {
        Ok(copied) => Ok(copied),
        Err(_) => Err(AllocError),
    }
}

impl QuickRow {
    pub fn of_row(alloc: Global, row: &Row) -> Result<QuickRow, AllocError>
        ensures { IfOk result (λ quick. quick ≡ row.now) }
    {
        let copied = copied(alloc, row)?;
        let konst = row.konst() as i64;
        match parts_of(alloc, row.coefs())? {
            Some(parts) => Ok(QuickRow {
                row: copied,
                narrow: true,
                parts,
                konst,
            }),
            None => Ok(QuickRow {
                row: copied,
                narrow: false,
                parts: Vec::new(alloc),
                konst,
            }),
        }
    }

    /// The value at a point of the row's width. The limits of `Row::value` hold.
    pub fn value(&self, z: &[i128]) -> i128
        requires width { length z.now ≡ length self.now.coefs }
        requires narrow { length z.now ≤ 64 }
        requires range { All IsCoordinate z.now }
        ensures { result ≡ value_at self.now z.now }
    {
        if self.narrow {
            i128::from(sum_at(&self.parts, self.konst, z))
        } else {
            self.row.value(z)
        }
    }
}
