//! A row: the coefficients of an affine form by column, and its constant.

ghost use Rattle.std.specs.Prelude.{neg_ℤ, ◌≡◌, ◌^◌, ◌<◌, ◌≤◌, length, All, IsTrue, ◌↔◌, IfOk, IfErr, slice_get, unsigned_abs};
ghost use Rattle.az_lin.specs.Affine.{Affine, IsEntry, IsCoordinate, IsWide, HasEntries, value_at, image_of, IsAtLeastZero};
ghost use Rattle.az_lin.specs.Answers.{IsExactly};
ghost use Rattle.az_lin.specs.Substitution.{Point, less, shifted, composed};
ghost use Rattle.az_lin.specs.Negation.{negated};
ghost use Rattle.az_lin.specs.declared.fault.LinFault.TheVariants.{Memory};

use crate::place::{Place, sum_at};
use crate::scalar::scalar_product;
use crate::{LinFault, Map, TryCopy};
use smallvec::SmallVec;
use std::alloc::Global;
use std::marker::Model;

/// The greatest magnitude of a stored entry.
const MOST_ENTRY: i128 = (1 << 60) - 1;

#[derive(Debug, Drop)]
pub struct Row {
    coefs: SmallVec<i128, 8>,
    konst: i128,
}

impl Model for Row {
    ghost use Rattle.az_lin.specs.Affine.{Affine, HasEntries};

    ghost Value = { Affine };

    ghost view = { λ row. record { coefs = row.coefs.items; konst = row.konst } };

    ghost invariant = { λ row. HasEntries (record { coefs = row.coefs.items; konst = row.konst }) };
}

/// Whether a number may be stored in a row.
fn is_entry(number: i128) -> bool
    ensures { IsTrue result ↔ IsEntry number }
{
    -MOST_ENTRY <= number && number <= MOST_ENTRY
}

fn negative(entry: &i128) -> i128
    requires { IsEntry entry.now }
    ensures value { result ≡ neg_ℤ entry.now }
    ensures range { IsEntry result }
{
    -*entry
}

/// Whether a row may have these coefficients and this constant.
pub(crate) fn are_entries(coefs: &[i128], konst: i128) -> bool
    ensures { IsTrue result ↔ HasEntries (record { coefs = coefs.now; konst = konst }) }
{
    is_entry(konst) && coefs.iter().all(|coef| is_entry(*coef))
}

impl Row {
    /// `Entry` exactly where a number lies outside ±(2^60 - 1).
    pub fn new(alloc: Global, coefs: &[i128], konst: i128) -> Result<Row, LinFault>
        ensures { IsExactly HasEntries (record { coefs = coefs.now; konst = konst }) result }
    {
        Row::checked(SmallVec::from_slice(alloc, coefs)?, konst)
    }

    fn checked(coefs: SmallVec<i128, 8>, konst: i128) -> Result<Row, LinFault>
        ensures { IsExactly HasEntries (record { coefs = coefs.items; konst = konst }) result }
    {
        if !are_entries(coefs.as_slice(), konst) {
            return Err(LinFault::Entry);
        }
        Ok(Row { coefs, konst })
    }

    pub fn width(&self) -> usize
        ensures { result ≡ length self.now.coefs }
    {
        self.coefs.len()
    }

    pub fn coef(&self, column: usize) -> i128
        requires { column < length self.now.coefs }
        ensures value { slice_get self.now.coefs column ≡ Some result }
        ensures range { IsEntry result }
    {
        self.coefs.as_slice()[column]
    }

    pub fn coefs(&self) -> &[i128]
        ensures value { result.now ≡ self.now.coefs }
        ensures range { All IsEntry result.now }
    {
        self.coefs.as_slice()
    }

    pub fn konst(&self) -> i128
        ensures value { result ≡ self.now.konst }
        ensures range { IsEntry result }
    {
        self.konst
    }

    /// Lets a caller know that the entries are in range.
    fn known(&self)
        ensures { HasEntries self.now }
    {
        let _ = &self.konst;
    }
}

/// Lets a caller know that the entries of each row are in range.
pub(crate) fn known(rows: &[Row])
    ensures { All HasEntries rows.now }
{
    'rows: for row in rows {
        row.known();
    }
}

impl Row {
    /// The value at a point of the row's width. The width is at most 64 and the coordinates lie
    /// within ±(2^40 - 1), so nothing overflows, and there is room for a few sums more.
    pub fn value(&self, z: &[i128]) -> i128
        requires width { length z.now ≡ length self.now.coefs }
        requires narrow { length z.now ≤ 64 }
        requires range { All IsCoordinate z.now }
        ensures value { result ≡ value_at self.now z.now }
        ensures range { unsigned_abs result < 2 ^ 107 }
    {
        scalar_product(self.coefs.as_slice(), z) + self.konst
    }

    /// The value at numbers within ±(2^60 - 1), as parameters may be, of which there are at most 64.
    /// Columns beyond them count for nothing.
    pub fn value_at_params(&self, params: &[i128]) -> i128
        requires width { length params.now ≤ length self.now.coefs }
        requires narrow { length params.now ≤ 64 }
        requires range { All IsEntry params.now }
        ensures value { result ≡ value_at self.now params.now }
        ensures range { IsWide result }
    {
        scalar_product(&self.coefs.as_slice()[..params.len()], params) + self.konst
    }

    /// The row whose value at `z` is the old one at `z - v`.
    pub fn shift(&self, alloc: Global, v: &[i128]) -> Result<Row, LinFault>
        requires width { length v.now ≡ length self.now.coefs }
        requires narrow { length v.now ≤ 64 }
        requires range { All IsEntry v.now }
        ensures exact { IsExactly HasEntries (shifted self.now v.now) result }
        ensures meaning { (z : Point) → length z ≡ length v.now → IfOk result (λ row. value_at row z ≡ value_at self.now (less z v.now)) }
    {
        let konst = self.konst - scalar_product(self.coefs.as_slice(), v);
        Row::new(alloc, self.coefs.as_slice(), konst)
    }

    /// The row whose value at `z` is the old one at `f(z)`.
    pub fn compose(&self, alloc: Global, f: &Map) -> Result<Row, LinFault>
        requires rows { length f.now.rows ≡ length self.now.coefs }
        requires narrow { length self.now.coefs ≤ 64 }
        ensures exact { IsExactly HasEntries (composed self.now f.now) result }
        ensures meaning { (z : Point) → IfOk result (λ row. value_at row z ≡ value_at self.now (image_of f.now z)) }
    {
        let width = f.width();
        let mut coefs = SmallVec::new(alloc);
        coefs.reserve(width)?;
        'columns: for column in 0..width {
            coefs.push(sum_at(self.coefs(), f.rows(), Place::Column(column), width))?;
        }
        let konst = sum_at(self.coefs(), f.rows(), Place::Constant, width);
        Row::checked(coefs, konst + self.konst())
    }

    /// The row `-e - 1` of a row `e`: it is at least 0 at the whole points where `e` is not.
    pub fn negate(&self, alloc: Global) -> Result<Row, LinFault>
        ensures exact { IsExactly HasEntries (negated self.now) result }
        ensures meaning { (z : Point) → IfOk result (λ row. IsAtLeastZero z row ↔ (IsAtLeastZero z self.now → ⊥)) }
    {
        let mut coefs = SmallVec::new(alloc);
        coefs.reserve(self.width())?;
        'coefs: for coef in self.coefs() {
            coefs.push(negative(coef))?;
        }
        let konst = self.konst();
        Row::checked(coefs, negative(&konst) - 1)
    }
}

impl TryCopy for Row {
    fn copy(&self, alloc: Global) -> Result<Self, LinFault> {
        let coefs = SmallVec::from_slice(alloc, self.coefs.as_slice())?;
        Ok(Row {
            coefs,
            konst: self.konst,
        })
    }
}
