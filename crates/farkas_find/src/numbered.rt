//! A row of the elimination and the number by which steps name it.

ghost use Rattle.std.specs.Prelude.{◌≡◌, ◌<◌, length, not};
ghost use Rattle.az_lin.specs.Affine.{IsWide};
ghost use Rattle.farkas_find.specs.Tidying.{coef_at, row_at, is_zero};
ghost use Rattle.farkas_find.specs.Combining.{is_positive, is_negative, has_sign};

use az_lin::ExactRow;

#[derive(Debug, Drop)]
pub(crate) struct Numbered {
    pub(crate) row: ExactRow,
    pub(crate) number: u32,
}

impl Numbered {
    pub(crate) fn coef(&self, column: usize) -> i128
        requires { column < length self.now.row.coefs }
        ensures value { result ≡ coef_at column self.now }
        ensures range { IsWide result }
    {
        self.row.coef(column)
    }

    pub(crate) fn has(&self, column: usize) -> bool
        requires { column < length self.now.row.coefs }
        ensures { result ≡ not (is_zero (coef_at column self.now)) }
    {
        self.coef(column) != 0
    }

    pub(crate) fn is_positive(&self, column: usize) -> bool
        requires { column < length self.now.row.coefs }
        ensures { result ≡ is_positive (coef_at column self.now) }
    {
        self.coef(column) > 0
    }

    fn is_negative(&self, column: usize) -> bool
        requires { column < length self.now.row.coefs }
        ensures { result ≡ is_negative (coef_at column self.now) }
    {
        self.coef(column) < 0
    }

    /// Whether the coefficient is positive, or else whether it is negative.
    pub(crate) fn has_sign(&self, column: usize, positive: bool) -> bool
        requires { column < length self.now.row.coefs }
        ensures { result ≡ has_sign positive (coef_at column self.now) }
    {
        if positive {
            self.is_positive(column)
        } else {
            self.is_negative(column)
        }
    }
}

/// The row at a place.
pub(crate) fn at(rows: &[Numbered], place: usize) -> &Numbered
    requires { place < length rows.now }
    ensures { result.now ≡ row_at rows.now place }
{
    &rows[place]
}
