//! Sums of products that stay within ±(2^127 - 1) on the way.

ghost use Rattle.std.specs.Prelude.{◌≡◌, ◌+ℤ◌, length, SomeIff};
ghost use Rattle.az_lin.specs.Affine.{dot};
ghost use Rattle.az_lin.specs.RationalPoint.{AddsWide};

use crate::{wide_product, wide_sum};

/// The start and the products of the two lists, added in order, or `None` exactly where a product
/// or a sum leaves ±(2^127 - 1).
pub fn add_products(start: i128, coefs: &[i128], nums: &[i128]) -> Option<i128>
    requires { length coefs.now ≡ length nums.now }
    ensures { SomeIff result (AddsWide start coefs.now nums.now) (start +ℤ dot coefs.now nums.now) }
{
    let mut sum = start;
    'columns: for column in 0..coefs.len() {
        let Some(product) = wide_product(coefs[column], nums[column]) else {
            return None;
        };
        let Some(next) = wide_sum(sum, product) else {
            return None;
        };
        sum = next;
    }
    Some(sum)
}
