//! The value of a row at a rational point, where it stays within ±(2^127 - 1) on the way.

ghost use Rattle.std.specs.Prelude.{◌≡◌, length, SomeIff, IfSome};
ghost use Rattle.az_lin.specs.Affine.{IsWide};
ghost use Rattle.az_lin.specs.RationalPoint.{IsWideAt, value_over};
ghost use Rattle.farkas_find.specs.BackSubstitution.{point_in};

use crate::found::Found;
use az_lin::{ExactRow, add_products, wide_product};

/// The denominator times the row's value at the point.
pub(crate) fn value_over(row: &ExactRow, found: &Found) -> Option<i128>
    requires { length row.now.coefs ≡ length found.now.nums.items }
    ensures exact { SomeIff result (IsWideAt (point_in found.now) row.now) (value_over row.now (point_in found.now)) }
    ensures range { IfSome result IsWide }
{
    let Some(start) = wide_product(row.konst(), found.den) else {
        return None;
    };
    add_products(start, row.coefs(), found.nums.as_slice())
}
