//! The scalar product, in ranges where it can't overflow.

ghost use Rattle.std.specs.Prelude.{◌≡◌, ◌^◌, ◌<◌, ◌≤◌, length, All, unsigned_abs};
ghost use Rattle.az_lin.specs.Affine.{IsEntry, dot};

/// The products of at most 64 pairs of entries stay far below 2^127, and so does their sum.
pub(crate) fn scalar_product(left: &[i128], right: &[i128]) -> i128
    requires same { length left.now ≡ length right.now }
    requires short { length left.now ≤ 64 }
    requires left_range { All IsEntry left.now }
    requires right_range { All IsEntry right.now }
    ensures value { result ≡ dot left.now right.now }
    ensures range { unsigned_abs result ≤ 2 ^ 126 }
{
    let mut sum = 0;
    'columns: for column in 0..left.len() {
        sum += left[column] * right[column];
    }
    sum
}
