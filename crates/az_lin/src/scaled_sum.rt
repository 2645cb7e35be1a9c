//! The sum of two scaled numbers and of two scaled lists, where it stays within ±(2^127 - 1).

ghost use Rattle.std.specs.Prelude.{◌≡◌, ◌+ℤ◌, ◌*ℤ◌, length, SomeIff, IfOk, option_map};
ghost use Rattle.std.specs.List.{AllZip};
ghost use Rattle.az_lin.specs.Affine.{IsWide};
ghost use Rattle.az_lin.specs.Combination.{scaled_sum, scaled_sums, IsWideSum};

use smallvec::SmallVec;
use std::alloc::{AllocError, Global};

/// The factors of the two rows of a sum.
#[derive(Debug, Clone, Copy)]
pub struct Weights {
    pub a: i128,
    pub b: i128,
}

/// The product, or `None` exactly where it leaves ±(2^127 - 1).
pub fn wide_product(x: i128, y: i128) -> Option<i128>
    ensures { SomeIff result (IsWide (x *ℤ y)) (x *ℤ y) }
{
    match x.checked_mul(y) {
        Some(product) if product != i128::MIN => Some(product),
        _ => None,
    }
}

/// The sum, or `None` exactly where it leaves ±(2^127 - 1).
pub fn wide_sum(x: i128, y: i128) -> Option<i128>
    ensures { SomeIff result (IsWide (x +ℤ y)) (x +ℤ y) }
{
    match x.checked_add(y) {
        Some(sum) if sum != i128::MIN => Some(sum),
        _ => None,
    }
}

pub(crate) fn sum_of_scaled(weights: &Weights, x: i128, y: i128) -> Option<i128>
    ensures { SomeIff result (IsWideSum weights.now.a x weights.now.b y) (scaled_sum weights.now.a x weights.now.b y) }
{
    let Some(left) = wide_product(weights.a, x) else {
        return None;
    };
    let Some(right) = wide_product(weights.b, y) else {
        return None;
    };
    wide_sum(left, right)
}

/// The sums of two lists of the same length, place by place.
pub(crate) fn sums_of_scaled(
    alloc: Global,
    weights: &Weights,
    left: &[i128],
    right: &[i128],
) -> Result<Option<SmallVec<i128, 8>>, AllocError>
    requires { length left.now ≡ length right.now }
    ensures { IfOk result (λ got. SomeIff (option_map (λ sums. sums.items) got)
        (AllZip (λ x y. IsWideSum weights.now.a x weights.now.b y) left.now right.now)
        (scaled_sums weights.now.a left.now weights.now.b right.now)) }
{
    let mut sums = SmallVec::with_capacity(alloc, left.len())?;
    'columns: for column in 0..left.len() {
        let Some(sum) = sum_of_scaled(weights, left[column], right[column]) else {
            return Ok(None);
        };
        sums.push(sum)?;
    }
    Ok(Some(sums))
}
