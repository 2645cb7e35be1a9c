//! The sum of what several rows have at one place, each times a weight.

ghost use Rattle.std.specs.Prelude.{◌≡◌, ◌^◌, ◌<◌, ◌≤◌, length, All, unsigned_abs};
ghost use Rattle.az_lin.specs.Affine.{IsEntry, HasWidth, dot};
ghost use Rattle.az_lin.specs.Substitution.{IsPlace, entry_at, entries};

use crate::Row;

/// A column's coefficient, or the constant.
#[derive(Clone, Copy)]
pub(crate) enum Place {
    Column(usize),
    Constant,
}

fn entry(row: &Row, place: Place) -> i128
    requires { IsPlace (length row.now.coefs) place }
    ensures value { result ≡ entry_at place row.now }
    ensures range { IsEntry result }
{
    match place {
        Place::Column(column) => row.coef(column),
        Place::Constant => row.konst(),
    }
}

/// As for a scalar product, at most 64 products of entries can't overflow.
pub(crate) fn sum_at(weights: &[i128], rows: &[Row], place: Place, width: usize) -> i128
    requires same { length weights.now ≡ length rows.now }
    requires short { length weights.now ≤ 64 }
    requires range { All IsEntry weights.now }
    requires widths { All (HasWidth width) rows.now }
    requires there { IsPlace width place }
    ensures value { result ≡ dot weights.now (entries place rows.now) }
    ensures range { unsigned_abs result ≤ 2 ^ 126 }
{
    let mut sum = 0;
    'rows: for number in 0..weights.len() {
        sum += weights[number] * entry(&rows[number], place);
    }
    sum
}
