//! A conjunction: the points at which every one of its rows is at least 0.

ghost use Rattle.std.specs.Prelude.{◌≡◌, All};
ghost use Rattle.az_lin.specs.Affine.{Polyhedron, HasWidth, HasEntries, IsOver, HasRowsOver, HasEntryConj};

use crate::row::known;
use crate::{LinFault, List, Row, TryCopy};
use std::alloc::Global;
use std::marker::Model;

#[derive(Debug, Drop)]
pub struct Conj {
    width: usize,
    rows: List<Row>,
}

impl Model for Conj {
    ghost use Rattle.std.specs.Prelude.{All};
    ghost use Rattle.az_lin.specs.Affine.{Polyhedron, HasWidth, HasEntries};

    ghost Value = { Polyhedron };

    ghost view = { λ conj. record { width = conj.width; rows = conj.rows } };

    ghost invariant = { λ conj. All (HasWidth conj.width) conj.rows × All HasEntries conj.rows };
}

impl Conj {
    pub fn new(width: usize, rows: List<Row>) -> Conj
        requires { All (HasWidth width) rows }
        ensures { result ≡ record { width = width; rows = rows } }
    {
        known(rows.as_slice());
        Conj { width, rows }
    }

    pub fn width(&self) -> usize
        ensures { result ≡ self.now.width }
    {
        self.width
    }

    pub fn rows(&self) -> &[Row]
        ensures value { result.now ≡ self.now.rows }
        ensures widths { All (HasWidth self.now.width) result.now }
        ensures entries { All HasEntries result.now }
    {
        self.rows.as_slice()
    }

    /// Lets a caller know what the rows have.
    pub(crate) fn known(&self, width: usize)
        requires { IsOver width self.now }
        ensures widths { HasRowsOver width self.now }
        ensures entries { HasEntryConj self.now }
    {
        let _ = width;
        let _ = &self.rows;
    }
}

/// Lets a caller know what the rows of each conjunction have.
pub(crate) fn known_parts(conjs: &[Conj], width: usize)
    requires { All (IsOver width) conjs.now }
    ensures widths { All (HasRowsOver width) conjs.now }
    ensures entries { All HasEntryConj conjs.now }
{
    'conjs: for conj in conjs {
        conj.known(width);
    }
}

impl TryCopy for Conj {
    fn copy(&self, alloc: Global) -> Result<Self, LinFault> {
        let rows = self.rows.copy(alloc)?;
        Ok(Conj {
            width: self.width,
            rows,
        })
    }
}
