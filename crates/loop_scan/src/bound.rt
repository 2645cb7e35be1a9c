//! A bound on an index that a row gives under the earlier indices.

ghost use Rattle.std.specs.Prelude.{◌≡◌, ◌≤◌, length, pos, ◌<ℤ◌};
ghost use Rattle.std.specs.Int.{int_div_euclid, int_max, int_min};
ghost use Rattle.std.specs.List.{All};
ghost use Rattle.az_lin.specs.Affine.{IsCoordinate};
ghost use Rattle.loop_scan.specs.Nest.Levels.{IsBound, narrowed_at};

use crate::range::Range;
use az_lin::Row;

/// The numbers `x` at which `coef * x + rest` is at least 0.
#[derive(Debug, Drop)]
pub(crate) struct Bound {
    pub(crate) coef: i128,
    pub(crate) rest: Row,
}

/// The quotient rounded down. Most divisors are 1, and dividing takes longer than all the rest.
fn floor(number: i128, divisor: i128) -> i128
    requires { pos 0 <ℤ divisor }
    ensures { result ≡ int_div_euclid number divisor }
{
    if divisor == 1 {
        return number;
    }
    number.div_euclid(divisor)
}

pub(crate) fn greater(x: i128, y: i128) -> i128
    ensures { result ≡ int_max x y }
{
    if y < x { x } else { y }
}

pub(crate) fn lesser(x: i128, y: i128) -> i128
    ensures { result ≡ int_min x y }
{
    if y < x { y } else { x }
}

impl Bound {
    /// What is left of the range after these coordinates of the earlier indices.
    pub(crate) fn narrowed(&self, before: &[i128], range: &Range) -> Range
        requires bound { IsBound (length before.now) self.now }
        requires narrow { length before.now ≤ 64 }
        requires coordinates { All IsCoordinate before.now }
        ensures { result ≡ narrowed_at before.now range.now self.now }
    {
        let rest = self.rest.value(before);
        if self.coef > 0 {
            Range {
                low: greater(-floor(rest, self.coef), range.low),
                high: range.high,
            }
        } else {
            Range {
                low: range.low,
                high: lesser(range.high, floor(rest, -self.coef)),
            }
        }
    }

    /// Whether the row with these coefficients and this constant says no more than the bound.
    pub(crate) fn implies(&self, coefs: &[i128], konst: i128) -> bool {
        let before = self.rest.coefs();
        coefs.starts_with(before)
            && coefs.get(before.len()).copied() == Some(self.coef)
            && self.rest.konst() <= konst
    }
}
